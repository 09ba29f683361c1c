// Block 2, eng.
#![tactic(auto)]

ghost use Rattle.std.specs.Prelude.{◌≡◌, refl};
ghost use Rattle.sheet.specs.Sheet.{eng_row, seng, geng};
ghost use Rattle.sheet.specs.Rows.{total};
ghost use Rattle.eng.specs.Eng.{eng_of, eng_numbers};

use sheet::{Block, Section};
use wire::Number;

#[repr(C)]
#[derive(Clone, Copy)]
pub struct Eng {
    pub nomVoltage: u16,
    pub nomCurrent: u16,
    pub nomSpeed: u32,
    pub uNomSpeed: u8,
    pub engineFlags: u16,
    pub antiplay: i16,
    pub microstepMode: u8,
    pub stepsPerRev: u16,
}

impl Eng {
    // The numbers of the fields as they stand on the wire.
    pub fn numbers(self) -> [u64; 8]
        ensures { result ≡ eng_numbers self }
    {
        [
            self.nomVoltage.number(),
            self.nomCurrent.number(),
            self.nomSpeed.number(),
            self.uNomSpeed.number(),
            self.engineFlags.number(),
            self.antiplay.number(),
            self.microstepMode.number(),
            self.stepsPerRev.number(),
        ]
    }
}

impl Section for Eng {
    ghost sheet_row = { eng_row };

    ghost of = { eng_of };

    ghost to = { eng_numbers };

    fn decode(part: &[u8]) -> Eng {
        Eng {
            nomVoltage: Number::read(part, 0),
            nomCurrent: Number::read(part, 2),
            nomSpeed: Number::read(part, 4),
            uNomSpeed: Number::read(part, 8),
            engineFlags: Number::read(part, 9),
            antiplay: Number::read(part, 11),
            microstepMode: Number::read(part, 13),
            stepsPerRev: Number::read(part, 14),
        }
    }

    fn first_bad(self) -> Option<usize> {
        let ns = self.numbers();
        ranges::first_false(&[
            true,
            ranges::is_within(15, 8000, ns[1]),
            ranges::is_within(1, 100000, ns[2]),
            true,
            ranges::has_only_bits(0xFF, ns[4]),
            true,
            ranges::is_within(1, 9, ns[6]),
            ranges::is_within(1, 65535, ns[7]),
        ])
    }
}

impl Block for Eng {
    ghost set = { seng };

    ghost get = { geng };

    const TOTAL: usize = 34;

    const SET: u32 = 0x676e6573;

    const GET: u32 = 0x676e6567;

    ghost TOTAL = { total eng_row };

    ghost SET = { seng.name };

    ghost GET = { geng.name };

    ghost total_fixed = { refl };

    ghost set_fixed = { refl };

    ghost get_fixed = { refl };

    ghost rows = { (refl, refl) };

    fn encode(self, out: &mut [u8]) {
        let ns = self.numbers();
        wire::lay(out, &[2, 2, 4, 1, 2, 2, 1, 2, 12], &ns)
    }

    fn is_sound(part: &[u8]) -> bool {
        ranges::is_within(15, 8000, u16::read(part, 2).number())
            & (ranges::is_within(1, 100000, u32::read(part, 4).number())
                & (ranges::has_only_bits(255, u16::read(part, 9).number())
                    & (ranges::is_within(1, 9, u8::read(part, 13).number())
                        & (ranges::is_within(1, 65535, u16::read(part, 14).number())
                            & ((u64::read(part, 16) == 0) & (u32::read(part, 24) == 0))))))
    }

    #[tactic(auto, unfolding(sheet::specs::Rows::least, ranges::specs::Tests::within, ranges::specs::Tests::only_bits))]
    fn fresh() -> Eng {
        Eng {
            nomVoltage: 0,
            nomCurrent: 15,
            nomSpeed: 1,
            uNomSpeed: 0,
            engineFlags: 0,
            antiplay: 0,
            microstepMode: 1,
            stepsPerRev: 1,
        }
    }
}
