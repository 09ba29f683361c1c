// Block 3, pwr.
#![tactic(auto)]

ghost use Rattle.std.specs.Prelude.{◌≡◌, refl};
ghost use Rattle.sheet.specs.Sheet.{pwr_row, spwr, gpwr};
ghost use Rattle.sheet.specs.Rows.{total};
ghost use Rattle.pwr.specs.Pwr.{pwr_of, pwr_numbers};

use sheet::{Block, Section};
use wire::Number;

#[repr(C)]
#[derive(Clone, Copy, Default)]
pub struct Pwr {
    pub holdCurrent: u8,
    pub currReductDelay: u16,
    pub powerOffDelay: u16,
    pub currentSetTime: u16,
    pub powerFlags: u8,
}

impl Pwr {
    // The numbers of the fields as they stand on the wire.
    pub fn numbers(self) -> [u64; 5]
        ensures { result ≡ pwr_numbers self }
    {
        [
            self.holdCurrent.number(),
            self.currReductDelay.number(),
            self.powerOffDelay.number(),
            self.currentSetTime.number(),
            self.powerFlags.number(),
        ]
    }
}

impl Section for Pwr {
    ghost sheet_row = { pwr_row };

    ghost of = { pwr_of };

    ghost to = { pwr_numbers };

    fn decode(part: &[u8]) -> Pwr {
        Pwr {
            holdCurrent: Number::read(part, 0),
            currReductDelay: Number::read(part, 1),
            powerOffDelay: Number::read(part, 3),
            currentSetTime: Number::read(part, 5),
            powerFlags: Number::read(part, 7),
        }
    }

    fn first_bad(self) -> Option<usize> {
        let ns = self.numbers();
        ranges::first_false(&[
            ranges::is_within(0, 100, ns[0]),
            true,
            true,
            true,
            ranges::has_only_bits(0x07, ns[4]),
        ])
    }
}

impl Block for Pwr {
    ghost set = { spwr };

    ghost get = { gpwr };

    const TOTAL: usize = 20;

    const SET: u32 = 0x72777073;

    const GET: u32 = 0x72777067;

    ghost TOTAL = { total pwr_row };

    ghost SET = { spwr.name };

    ghost GET = { gpwr.name };

    ghost total_fixed = { refl };

    ghost set_fixed = { refl };

    ghost get_fixed = { refl };

    ghost rows = { (refl, refl) };

    fn encode(self, out: &mut [u8]) {
        let ns = self.numbers();
        wire::lay(out, &[1, 2, 2, 2, 1, 6], &ns)
    }

    fn is_sound(part: &[u8]) -> bool {
        ranges::is_within(0, 100, u8::read(part, 0).number())
            & (ranges::has_only_bits(7, u8::read(part, 7).number())
                & ((u32::read(part, 8) == 0) & (u16::read(part, 12) == 0)))
    }

    #[tactic(auto, unfolding(sheet::specs::Rows::least, ranges::specs::Tests::within, ranges::specs::Tests::only_bits))]
    fn fresh() -> Pwr {
        Pwr::default()
    }
}
