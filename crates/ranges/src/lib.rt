// Tests of a number as it stands on the wire: ranges, floats, flag bits; and the first of some tests that failed.
#![tactic(auto)]

ghost use Rattle.std.specs.Prelude.{◌≡◌};
ghost use Rattle.ranges.specs.Tests.{within, signed_within, finite, only_bits, first_false, found, ruled_found};

#[tactic(auto, unfolding(crate::specs::Tests::within))]
pub fn is_within(lo: u64, hi: u64, n: u64) -> bool
    ensures { result ≡ within lo hi n }
{
    (lo..=hi).contains(&n)
}

// A signed 16-bit number from -k to k.
#[tactic(auto, unfolding(crate::specs::Tests::signed_within))]
pub fn is_signed_within(k: u16, n: u64) -> bool
    ensures { result ≡ signed_within k n }
{
    let k = u64::from(k);
    n <= k || 65536 - k <= n
}

// A 32-bit float whose exponent bits are not all ones: of its number, since `from_bits` is undefined at a NaN.
#[tactic(auto, unfolding(crate::specs::Tests::finite))]
pub fn is_finite(n: u64) -> bool
    ensures { result ≡ finite n }
{
    n % 2147483648 / 8388608 != 255
}

// A number with no bit outside the mask.
#[tactic(auto, unfolding(crate::specs::Tests::only_bits))]
pub fn has_only_bits(mask: u64, n: u64) -> bool
    ensures { result ≡ only_bits mask n }
{
    n & mask == n
}

// The number, from 1, of the first test that failed.
pub fn first_false(tests: &[bool]) -> Option<usize>
    ensures { result ≡ found (first_false 1 tests.now) }
{
    tests.iter().position(|&passed| !passed).map(|k| k + 1)
}

// The field that is refused: the first out of its range, and behind all of them 99, where a rule over the fields is broken.
pub fn ruled(bad: Option<usize>, kept: bool) -> Option<usize>
    ensures { result ≡ ruled_found bad kept }
{
    bad.or((!kept).then_some(99))
}
