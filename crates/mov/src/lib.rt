// Block 1, mov.
#![tactic(auto)]

ghost use Rattle.std.specs.Prelude.{◌≡◌, refl};
ghost use Rattle.sheet.specs.Sheet.{mov_row, smov, gmov};
ghost use Rattle.sheet.specs.Rows.{total};
ghost use Rattle.mov.specs.Mov.{mov_of, mov_numbers};

use sheet::{Block, Section};
use wire::Number;

#[repr(C)]
#[derive(Clone, Copy)]
pub struct Mov {
    pub speed: u32,
    pub uSpeed: u8,
    pub accel: u16,
    pub decel: u16,
    pub antiplaySpeed: u32,
    pub uAntiplaySpeed: u8,
}

impl Mov {
    // The numbers of the fields as they stand on the wire.
    pub fn numbers(self) -> [u64; 6]
        ensures { result ≡ mov_numbers self }
    {
        [
            self.speed.number(),
            self.uSpeed.number(),
            self.accel.number(),
            self.decel.number(),
            self.antiplaySpeed.number(),
            self.uAntiplaySpeed.number(),
        ]
    }
}

impl Section for Mov {
    ghost sheet_row = { mov_row };

    ghost of = { mov_of };

    ghost to = { mov_numbers };

    fn decode(part: &[u8]) -> Mov {
        Mov {
            speed: Number::read(part, 0),
            uSpeed: Number::read(part, 4),
            accel: Number::read(part, 5),
            decel: Number::read(part, 7),
            antiplaySpeed: Number::read(part, 9),
            uAntiplaySpeed: Number::read(part, 13),
        }
    }

    fn first_bad(self) -> Option<usize> {
        let ns = self.numbers();
        ranges::first_false(&[
            ranges::is_within(0, 100000, ns[0]),
            true,
            ranges::is_within(1, 65535, ns[2]),
            ranges::is_within(1, 65535, ns[3]),
            ranges::is_within(0, 100000, ns[4]),
            true,
        ])
    }
}

impl Block for Mov {
    ghost set = { smov };

    ghost get = { gmov };

    const TOTAL: usize = 30;

    const SET: u32 = 0x766f6d73;

    const GET: u32 = 0x766f6d67;

    ghost TOTAL = { total mov_row };

    ghost SET = { smov.name };

    ghost GET = { gmov.name };

    ghost total_fixed = { refl };

    ghost set_fixed = { refl };

    ghost get_fixed = { refl };

    ghost rows = { (refl, refl) };

    fn encode(self, out: &mut [u8]) {
        let ns = self.numbers();
        wire::lay(out, &[4, 1, 2, 2, 4, 1, 10], &ns)
    }

    fn is_sound(part: &[u8]) -> bool {
        ranges::is_within(0, 100000, u32::read(part, 0).number())
            & (ranges::is_within(1, 65535, u16::read(part, 5).number())
                & (ranges::is_within(1, 65535, u16::read(part, 7).number())
                    & (ranges::is_within(0, 100000, u32::read(part, 9).number())
                        & ((u64::read(part, 14) == 0) & (u16::read(part, 22) == 0)))))
    }

    #[tactic(auto, unfolding(sheet::specs::Rows::least, ranges::specs::Tests::within))]
    fn fresh() -> Mov {
        Mov {
            speed: 0,
            uSpeed: 0,
            accel: 1,
            decel: 1,
            antiplaySpeed: 0,
            uAntiplaySpeed: 0,
        }
    }
}
