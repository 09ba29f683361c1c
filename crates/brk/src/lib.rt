// Block 6, brk.
#![tactic(auto)]

ghost use Rattle.std.specs.Prelude.{◌≡◌, refl};
ghost use Rattle.sheet.specs.Sheet.{brk_row, sbrk, gbrk};
ghost use Rattle.sheet.specs.Rows.{total};
ghost use Rattle.brk.specs.Brk.{brk_of, brk_numbers};

use sheet::{Block, Section};
use wire::Number;

#[repr(C)]
#[derive(Clone, Copy, Default)]
pub struct Brk {
    pub t1: u16,
    pub t2: u16,
    pub t3: u16,
    pub t4: u16,
    pub brakeFlags: u8,
}

impl Brk {
    // The numbers of the fields as they stand on the wire.
    pub fn numbers(self) -> [u64; 5]
        ensures { result ≡ brk_numbers self }
    {
        [
            self.t1.number(),
            self.t2.number(),
            self.t3.number(),
            self.t4.number(),
            self.brakeFlags.number(),
        ]
    }
}

impl Section for Brk {
    ghost sheet_row = { brk_row };

    ghost of = { brk_of };

    ghost to = { brk_numbers };

    fn decode(part: &[u8]) -> Brk {
        Brk {
            t1: Number::read(part, 0),
            t2: Number::read(part, 2),
            t3: Number::read(part, 4),
            t4: Number::read(part, 6),
            brakeFlags: Number::read(part, 8),
        }
    }

    fn first_bad(self) -> Option<usize> {
        let ns = self.numbers();
        ranges::first_false(&[true, true, true, true, ranges::has_only_bits(0x03, ns[4])])
    }
}

impl Block for Brk {
    ghost set = { sbrk };

    ghost get = { gbrk };

    const TOTAL: usize = 25;

    const SET: u32 = 0x6b726273;

    const GET: u32 = 0x6b726267;

    ghost TOTAL = { total brk_row };

    ghost SET = { sbrk.name };

    ghost GET = { gbrk.name };

    ghost total_fixed = { refl };

    ghost set_fixed = { refl };

    ghost get_fixed = { refl };

    ghost rows = { (refl, refl) };

    fn encode(self, out: &mut [u8]) {
        let ns = self.numbers();
        wire::lay(out, &[2, 2, 2, 2, 1, 10], &ns)
    }

    fn is_sound(part: &[u8]) -> bool {
        ranges::has_only_bits(3, u8::read(part, 8).number())
            & ((u64::read(part, 9) == 0) & (u16::read(part, 17) == 0))
    }

    #[tactic(auto, unfolding(sheet::specs::Rows::least, ranges::specs::Tests::only_bits))]
    fn fresh() -> Brk {
        Brk::default()
    }
}
