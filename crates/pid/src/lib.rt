// Block 7, pid.
#![tactic(auto)]

ghost use Rattle.std.specs.Prelude.{◌≡◌, refl};
ghost use Rattle.sheet.specs.Sheet.{pid_row, spid, gpid};
ghost use Rattle.sheet.specs.Rows.{total};
ghost use Rattle.pid.specs.Pid.{pid_of, pid_numbers};

use sheet::{Block, Section};
use wire::Number;

#[repr(C)]
#[derive(Clone, Copy, Default)]
pub struct Pid {
    pub kpU: u16,
    pub kiU: u16,
    pub kdU: u16,
    pub kpf: f32,
    pub kif: f32,
    pub kdf: f32,
}

impl Pid {
    // The numbers of the fields as they stand on the wire.
    pub fn numbers(self) -> [u64; 6]
        ensures { result ≡ pid_numbers self }
    {
        [
            self.kpU.number(),
            self.kiU.number(),
            self.kdU.number(),
            self.kpf.number(),
            self.kif.number(),
            self.kdf.number(),
        ]
    }
}

impl Section for Pid {
    ghost sheet_row = { pid_row };

    ghost of = { pid_of };

    ghost to = { pid_numbers };

    fn decode(part: &[u8]) -> Pid {
        Pid {
            kpU: Number::read(part, 0),
            kiU: Number::read(part, 2),
            kdU: Number::read(part, 4),
            kpf: Number::read(part, 6),
            kif: Number::read(part, 10),
            kdf: Number::read(part, 14),
        }
    }

    fn first_bad(self) -> Option<usize> {
        let ns = self.numbers();
        ranges::first_false(&[
            true,
            true,
            true,
            ranges::is_finite(ns[3]),
            ranges::is_finite(ns[4]),
            ranges::is_finite(ns[5]),
        ])
    }
}

impl Block for Pid {
    ghost set = { spid };

    ghost get = { gpid };

    const TOTAL: usize = 48;

    const SET: u32 = 0x64697073;

    const GET: u32 = 0x64697067;

    ghost TOTAL = { total pid_row };

    ghost SET = { spid.name };

    ghost GET = { gpid.name };

    ghost total_fixed = { refl };

    ghost set_fixed = { refl };

    ghost get_fixed = { refl };

    ghost rows = { (refl, refl) };

    fn encode(self, out: &mut [u8]) {
        let ns = self.numbers();
        wire::lay(out, &[2, 2, 2, 4, 4, 4, 24], &ns)
    }

    fn is_sound(part: &[u8]) -> bool {
        ranges::is_finite(u32::read(part, 6).number())
            & (ranges::is_finite(u32::read(part, 10).number())
                & (ranges::is_finite(u32::read(part, 14).number())
                    & ((u64::read(part, 18) == 0)
                        & ((u64::read(part, 26) == 0) & (u64::read(part, 34) == 0)))))
    }

    #[tactic(auto, unfolding(sheet::specs::Rows::least, ranges::specs::Tests::finite))]
    fn fresh() -> Pid {
        Pid::default()
    }
}
