// Text in ASCII, laid into a lent buffer from a place on: bytes, decimal, hexadecimal. The answer is the place behind. Every function answers
// every input: a byte past the end of the buffer is not written.
// By hand and not by Display: only of a String does `write!` say what it has written, and there is no heap. And no struct of buffer and place: one that lends its
// buffer on would say of each text what its entry and its exit are, and one that owns it takes no buffer of the caller's.
#![tactic(auto)]

ghost use Rattle.std.specs.Prelude.{[], ◌∷◌, ◌++◌, ◌≡◌, ◌<◌};
ghost use Rattle.text.specs.Texts.{glyph, decimal, signed, hex, shown, Written};

pub fn write_text(out: &mut [u8], at: usize, text: &[u8]) -> usize
    ensures { Written out.old at text.now result out.new }
{
    wire::copy(out, at, text);
    at.saturating_add(text.len()).min(out.len())
}

pub fn write_byte(out: &mut [u8], at: usize, b: u8) -> usize
    ensures { Written out.old at (b ∷ []) result out.new }
{
    write_text(out, at, &[b])
}

// `as u8`, since the digit is below 10: a TryFrom would only be unwrapped.
pub fn write_decimal(out: &mut [u8], at: usize, n: u64) -> usize
    ensures { Written out.old at (decimal n) result out.new }
{
    if n < 10 {
        return write_byte(out, at, b'0' + n as u8);
    }
    let last = write_decimal(out, at, n / 10);
    write_byte(out, last, b'0' + (n % 10) as u8)
}

// A number and the byte behind it.
pub fn write_number(out: &mut [u8], at: usize, n: u64, end: u8) -> usize
    ensures { Written out.old at (decimal n ++ end ∷ []) result out.new }
{
    let last = write_decimal(out, at, n);
    write_byte(out, last, end)
}

pub fn write_signed(out: &mut [u8], at: usize, z: i64) -> usize
    ensures { Written out.old at (signed z) result out.new }
{
    if z >= 0 {
        return write_decimal(out, at, z.unsigned_abs());
    }
    let first = write_byte(out, at, b'-');
    write_decimal(out, first, z.unsigned_abs())
}

// A digit below 16.
fn digit(d: u8) -> u8
    requires { d < 16 }
    ensures { result ≡ glyph d }
{
    if d < 10 { b'0' + d } else { b'a' - 10 + d }
}

pub fn write_hex(out: &mut [u8], at: usize, part: &[u8]) -> usize
    ensures { Written out.old at (hex part.now) result out.new }
{
    // Where there is no room, the part is not looked at, however long.
    if out.len() <= at {
        return out.len();
    }
    let mut p = at;
    for &b in part {
        p = write_byte(out, p, digit(b / 16));
        p = write_byte(out, p, digit(b % 16));
    }
    p
}

// Hexadecimal, or `-` of no bytes.
#[tactic(auto, unfolding(crate::specs::Texts::shown))]
pub fn write_reply(out: &mut [u8], at: usize, reply: &[u8]) -> usize
    ensures { Written out.old at (shown reply.now) result out.new }
{
    if reply.is_empty() {
        write_byte(out, at, b'-')
    } else {
        write_hex(out, at, reply)
    }
}
