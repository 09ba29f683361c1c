// Block 5, hom.
#![tactic(auto)]

ghost use Rattle.std.specs.Prelude.{◌≡◌, refl};
ghost use Rattle.sheet.specs.Sheet.{hom_row, shom, ghom};
ghost use Rattle.sheet.specs.Rows.{total};
ghost use Rattle.hom.specs.Hom.{hom_of, hom_numbers};

use sheet::{Block, Section};
use wire::Number;

#[repr(C)]
#[derive(Clone, Copy, Default)]
pub struct Hom {
    pub fastHome: u32,
    pub uFastHome: u8,
    pub slowHome: u32,
    pub uSlowHome: u8,
    pub homeDelta: i32,
    pub uHomeDelta: i16,
    pub homeFlags: u16,
}

impl Hom {
    // The numbers of the fields as they stand on the wire.
    pub fn numbers(self) -> [u64; 7]
        ensures { result ≡ hom_numbers self }
    {
        [
            self.fastHome.number(),
            self.uFastHome.number(),
            self.slowHome.number(),
            self.uSlowHome.number(),
            self.homeDelta.number(),
            self.uHomeDelta.number(),
            self.homeFlags.number(),
        ]
    }
}

impl Section for Hom {
    ghost sheet_row = { hom_row };

    ghost of = { hom_of };

    ghost to = { hom_numbers };

    fn decode(part: &[u8]) -> Hom {
        Hom {
            fastHome: Number::read(part, 0),
            uFastHome: Number::read(part, 4),
            slowHome: Number::read(part, 5),
            uSlowHome: Number::read(part, 9),
            homeDelta: Number::read(part, 10),
            uHomeDelta: Number::read(part, 14),
            homeFlags: Number::read(part, 16),
        }
    }

    fn first_bad(self) -> Option<usize> {
        let ns = self.numbers();
        ranges::first_false(&[
            ranges::is_within(0, 100000, ns[0]),
            true,
            ranges::is_within(0, 100000, ns[2]),
            true,
            true,
            ranges::is_signed_within(255, ns[5]),
            ranges::has_only_bits(0x1FF, ns[6]),
        ])
    }
}

impl Block for Hom {
    ghost set = { shom };

    ghost get = { ghom };

    const TOTAL: usize = 33;

    const SET: u32 = 0x6d6f6873;

    const GET: u32 = 0x6d6f6867;

    ghost TOTAL = { total hom_row };

    ghost SET = { shom.name };

    ghost GET = { ghom.name };

    ghost total_fixed = { refl };

    ghost set_fixed = { refl };

    ghost get_fixed = { refl };

    ghost rows = { (refl, refl) };

    fn encode(self, out: &mut [u8]) {
        let ns = self.numbers();
        wire::lay(out, &[4, 1, 4, 1, 4, 2, 2, 9], &ns)
    }

    fn is_sound(part: &[u8]) -> bool {
        ranges::is_within(0, 100000, u32::read(part, 0).number())
            & (ranges::is_within(0, 100000, u32::read(part, 5).number())
                & (ranges::is_signed_within(255, u16::read(part, 14).number())
                    & (ranges::has_only_bits(511, u16::read(part, 16).number())
                        & ((u64::read(part, 18) == 0) & (u8::read(part, 26) == 0)))))
    }

    #[tactic(auto, unfolding(sheet::specs::Rows::least, ranges::specs::Tests::within, ranges::specs::Tests::signed_within, ranges::specs::Tests::only_bits))]
    fn fresh() -> Hom {
        Hom::default()
    }
}
