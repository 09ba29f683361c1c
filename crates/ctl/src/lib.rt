// Block 11, ctl (02, P6). Its arrays are runs of fields: each element is a field of its own on the wire.
#![tactic(auto)]

ghost use Rattle.std.specs.Prelude.{not, ◌&&◌, ◌≡◌, ◌+◌, ◌*◌, ◌^◌, ◌<◌, ◌≤◌, eqb, map, take, replicate, refl};
ghost use Rattle.wire.specs.Layout.{numbers};
ghost use Rattle.ranges.specs.Tests.{first_false};
ghost use Rattle.sheet.specs.Sheet.{ctl_row, sctl, gctl};
ghost use Rattle.sheet.specs.Rows.{total, numbers_in, verdicts};
ghost use Rattle.ctl.specs.Ctl.{ctl_of, ctl_numbers};

use sheet::{Block, Section};
use std::array;
use wire::Number;

#[repr(C)]
#[derive(Clone, Copy)]
pub struct Ctl {
    pub maxSpeed: [u32; 10],
    pub uMaxSpeed: [u8; 10],
    pub timeout: [u16; 9],
    pub maxClickTime: u16,
    pub flags: u16,
    pub deltaPosition: i32,
    pub uDeltaPosition: i16,
}

// The widths of the fields in their sequence, and the reserved bytes.
const WIDTHS: [usize; 34] = [
    4, 4, 4, 4, 4, 4, 4, 4, 4, 4, 1, 1, 1, 1, 1, 1, 1, 1, 1, 1, 2, 2, 2, 2, 2, 2, 2, 2, 2, 2, 2, 4,
    2, 9,
];

// The rule of the mill: the first speed and its part are not both zero.
fn not_both_zero(speed: u64, part: u64) -> bool
    ensures { result ≡ not (eqb speed 0 && eqb part 0) }
{
    (speed != 0) | (part != 0)
}

// An array of a data section: numbers of one width, the first at a place.
fn run<T: Number, const N: usize>(part: &[u8], at: usize) -> [T; N]
    requires fits { at + T.WIDTH * N < 2 ^ 64 }
    ensures { result ≡ map T.stands_for (numbers (replicate N T.WIDTH) at part.now) }
{
    array::from_fn(|k| T::read(part, at + T::WIDTH * k))
}

// The tests of the numbers, in the sequence of the fields.
fn tests_of(ns: &[u64; 33]) -> [bool; 33]
    ensures { result ≡ verdicts ctl_row.fields 0 ns.now }
{
    array::from_fn(|k| match k {
        0..=9 => ranges::is_within(0, 100000, ns[k]),
        30 => ranges::has_only_bits(0x0F, ns[k]),
        32 => ranges::is_signed_within(255, ns[k]),
        _ => true,
    })
}

// Whether every speed of a data section is in its range. By `fold` and not `all`: it is asked at every call, and so has no branch.
fn speeds_within(part: &[u8]) -> bool
    ensures { result ≡ eqb (first_false 1 (verdicts (take 10 ctl_row.fields) 0 (numbers_in ctl_row part.now))) 0 }
{
    (0..10).fold(true, |all, k| {
        all & ranges::is_within(0, 100000, u32::read(part, 4 * k).number())
    })
}

impl Ctl {
    // The numbers of the fields as they stand on the wire.
    pub fn numbers(self) -> [u64; 33]
        ensures { result ≡ ctl_numbers self }
    {
        let mut ns = [0; 33];
        ns[..10].copy_from_slice(&self.maxSpeed.map(u64::from));
        ns[10..20].copy_from_slice(&self.uMaxSpeed.map(u64::from));
        ns[20..29].copy_from_slice(&self.timeout.map(u64::from));
        ns[29] = self.maxClickTime.number();
        ns[30] = self.flags.number();
        ns[31] = self.deltaPosition.number();
        ns[32] = self.uDeltaPosition.number();
        ns
    }
}

impl Section for Ctl {
    ghost sheet_row = { ctl_row };

    ghost of = { ctl_of };

    ghost to = { ctl_numbers };

    fn decode(part: &[u8]) -> Ctl {
        Ctl {
            maxSpeed: run(part, 0),
            uMaxSpeed: run(part, 40),
            timeout: run(part, 50),
            maxClickTime: Number::read(part, 68),
            flags: Number::read(part, 70),
            deltaPosition: Number::read(part, 72),
            uDeltaPosition: Number::read(part, 76),
        }
    }

    fn first_bad(self) -> Option<usize> {
        let ns = self.numbers();
        let bad = ranges::first_false(&tests_of(&ns));
        ranges::ruled(bad, not_both_zero(ns[0], ns[10]))
    }
}

impl Block for Ctl {
    ghost set = { sctl };

    ghost get = { gctl };

    const TOTAL: usize = 93;

    const SET: u32 = 0x6c746373;

    const GET: u32 = 0x6c746367;

    ghost TOTAL = { total ctl_row };

    ghost SET = { sctl.name };

    ghost GET = { gctl.name };

    ghost total_fixed = { refl };

    ghost set_fixed = { refl };

    ghost get_fixed = { refl };

    ghost rows = { (refl, refl) };

    fn encode(self, out: &mut [u8]) {
        let ns = self.numbers();
        wire::lay(out, &WIDTHS, &ns)
    }

    fn is_sound(part: &[u8]) -> bool {
        speeds_within(part)
            & (ranges::has_only_bits(0x0F, u16::read(part, 70).number())
                & (ranges::is_signed_within(255, u16::read(part, 76).number())
                    & (not_both_zero(u32::read(part, 0).number(), u8::read(part, 40).number())
                        & ((u64::read(part, 78) == 0) & (u8::read(part, 86) == 0)))))
    }

    fn fresh() -> Ctl {
        Ctl {
            maxSpeed: [1, 0, 0, 0, 0, 0, 0, 0, 0, 0],
            uMaxSpeed: [0; 10],
            timeout: [0; 9],
            maxClickTime: 0,
            flags: 0,
            deltaPosition: 0,
            uDeltaPosition: 0,
        }
    }
}
