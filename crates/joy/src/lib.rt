// Block 12, joy (02, P6).
#![tactic(auto)]

ghost use Rattle.std.specs.Prelude.{◌&&◌, ◌≡◌, leb, refl};
ghost use Rattle.sheet.specs.Sheet.{joy_row, sjoy, gjoy};
ghost use Rattle.sheet.specs.Rows.{total};
ghost use Rattle.joy.specs.Joy.{joy_of, joy_numbers};

use sheet::{Block, Section};
use wire::Number;

#[repr(C)]
#[derive(Clone, Copy, Default)]
pub struct Joy {
    pub joyLowEnd: u16,
    pub joyCenter: u16,
    pub joyHighEnd: u16,
    pub expFactor: u8,
    pub deadZone: u8,
    pub joyFlags: u8,
}

// The rule of the mill: low ≤ centre ≤ high.
fn in_sequence(low: u64, centre: u64, high: u64) -> bool
    ensures { result ≡ (leb low centre && leb centre high) }
{
    (low <= centre) & (centre <= high)
}

impl Joy {
    // The numbers of the fields as they stand on the wire.
    pub fn numbers(self) -> [u64; 6]
        ensures { result ≡ joy_numbers self }
    {
        [
            self.joyLowEnd.number(),
            self.joyCenter.number(),
            self.joyHighEnd.number(),
            self.expFactor.number(),
            self.deadZone.number(),
            self.joyFlags.number(),
        ]
    }
}

impl Section for Joy {
    ghost sheet_row = { joy_row };

    ghost of = { joy_of };

    ghost to = { joy_numbers };

    fn decode(part: &[u8]) -> Joy {
        Joy {
            joyLowEnd: Number::read(part, 0),
            joyCenter: Number::read(part, 2),
            joyHighEnd: Number::read(part, 4),
            expFactor: Number::read(part, 6),
            deadZone: Number::read(part, 7),
            joyFlags: Number::read(part, 8),
        }
    }

    fn first_bad(self) -> Option<usize> {
        let ns = self.numbers();
        let bad = ranges::first_false(&[
            ranges::is_within(0, 10000, ns[0]),
            ranges::is_within(0, 10000, ns[1]),
            ranges::is_within(0, 10000, ns[2]),
            true,
            true,
            ranges::has_only_bits(0x01, ns[5]),
        ]);
        ranges::ruled(bad, in_sequence(ns[0], ns[1], ns[2]))
    }
}

impl Block for Joy {
    ghost set = { sjoy };

    ghost get = { gjoy };

    const TOTAL: usize = 22;

    const SET: u32 = 0x796f6a73;

    const GET: u32 = 0x796f6a67;

    ghost TOTAL = { total joy_row };

    ghost SET = { sjoy.name };

    ghost GET = { gjoy.name };

    ghost total_fixed = { refl };

    ghost set_fixed = { refl };

    ghost get_fixed = { refl };

    ghost rows = { (refl, refl) };

    fn encode(self, out: &mut [u8]) {
        let ns = self.numbers();
        wire::lay(out, &[2, 2, 2, 1, 1, 1, 7], &ns)
    }

    fn is_sound(part: &[u8]) -> bool {
        let low = u16::read(part, 0).number();
        let centre = u16::read(part, 2).number();
        let high = u16::read(part, 4).number();
        ranges::is_within(0, 10000, low)
            & (ranges::is_within(0, 10000, centre)
                & (ranges::is_within(0, 10000, high)
                    & (ranges::has_only_bits(0x01, u8::read(part, 8).number())
                        & (in_sequence(low, centre, high)
                            & ((u32::read(part, 9) == 0)
                                & ((u16::read(part, 13) == 0) & (u8::read(part, 15) == 0)))))))
    }

    #[tactic(auto, unfolding(sheet::specs::Rows::least, ranges::specs::Tests::within, ranges::specs::Tests::only_bits))]
    fn fresh() -> Joy {
        Joy::default()
    }
}
