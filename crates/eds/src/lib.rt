// Block 4, eds.
#![tactic(auto)]

ghost use Rattle.std.specs.Prelude.{◌≡◌, refl};
ghost use Rattle.sheet.specs.Sheet.{eds_row, seds, geds};
ghost use Rattle.sheet.specs.Rows.{total};
ghost use Rattle.eds.specs.Eds.{eds_of, eds_numbers};

use sheet::{Block, Section};
use wire::Number;

#[repr(C)]
#[derive(Clone, Copy, Default)]
pub struct Eds {
    pub borderFlags: u8,
    pub enderFlags: u8,
    pub leftBorder: i32,
    pub uLeftBorder: i16,
    pub rightBorder: i32,
    pub uRightBorder: i16,
}

impl Eds {
    // The numbers of the fields as they stand on the wire.
    pub fn numbers(self) -> [u64; 6]
        ensures { result ≡ eds_numbers self }
    {
        [
            self.borderFlags.number(),
            self.enderFlags.number(),
            self.leftBorder.number(),
            self.uLeftBorder.number(),
            self.rightBorder.number(),
            self.uRightBorder.number(),
        ]
    }
}

impl Section for Eds {
    ghost sheet_row = { eds_row };

    ghost of = { eds_of };

    ghost to = { eds_numbers };

    fn decode(part: &[u8]) -> Eds {
        Eds {
            borderFlags: Number::read(part, 0),
            enderFlags: Number::read(part, 1),
            leftBorder: Number::read(part, 2),
            uLeftBorder: Number::read(part, 6),
            rightBorder: Number::read(part, 8),
            uRightBorder: Number::read(part, 12),
        }
    }

    fn first_bad(self) -> Option<usize> {
        let ns = self.numbers();
        ranges::first_false(&[
            ranges::has_only_bits(0x0F, ns[0]),
            ranges::has_only_bits(0x07, ns[1]),
            true,
            ranges::is_signed_within(255, ns[3]),
            true,
            ranges::is_signed_within(255, ns[5]),
        ])
    }
}

impl Block for Eds {
    ghost set = { seds };

    ghost get = { geds };

    const TOTAL: usize = 26;

    const SET: u32 = 0x73646573;

    const GET: u32 = 0x73646567;

    ghost TOTAL = { total eds_row };

    ghost SET = { seds.name };

    ghost GET = { geds.name };

    ghost total_fixed = { refl };

    ghost set_fixed = { refl };

    ghost get_fixed = { refl };

    ghost rows = { (refl, refl) };

    fn encode(self, out: &mut [u8]) {
        let ns = self.numbers();
        wire::lay(out, &[1, 1, 4, 2, 4, 2, 6], &ns)
    }

    fn is_sound(part: &[u8]) -> bool {
        ranges::has_only_bits(15, u8::read(part, 0).number())
            & (ranges::has_only_bits(7, u8::read(part, 1).number())
                & (ranges::is_signed_within(255, u16::read(part, 6).number())
                    & (ranges::is_signed_within(255, u16::read(part, 12).number())
                        & ((u32::read(part, 14) == 0) & (u16::read(part, 18) == 0)))))
    }

    #[tactic(auto, unfolding(sheet::specs::Rows::least, ranges::specs::Tests::signed_within, ranges::specs::Tests::only_bits))]
    fn fresh() -> Eds {
        Eds::default()
    }
}
