// Positions and travel (02, P5). "Whole steps, microsteps and encoder counts stay three separate quantities": a type each, and nothing adds one to
// another.
#![tactic(auto)]

ghost use Rattle.std.specs.Prelude.{◌≡◌};
ghost use Rattle.std.proofs.lemmas.List.Edits.{sets};
ghost use Rattle.sheet.specs.Sheet.{move_row, spos_row, gpos_row};
ghost use Rattle.sheet.specs.Rows.{data_of};
ghost use Rattle.position.specs.Position.{travel_of, travel_numbers, spos_of, spos_numbers, position_of, position_numbers, fresh_position, cleared, placed};

use sheet::Section;
use wire::Number;

#[repr(C)]
#[derive(Clone, Copy, PartialEq, Eq, Default)]
pub struct Steps(pub i32);

#[repr(C)]
#[derive(Clone, Copy, PartialEq, Eq, Default)]
pub struct Microsteps(pub i16);

#[repr(C)]
#[derive(Clone, Copy, PartialEq, Eq, Default)]
pub struct Count(pub i64);

// What move and movr carry, blocks 8 and 9: where to go, or how far.
#[repr(C)]
#[derive(Clone, Copy, PartialEq, Eq)]
pub struct Travel {
    pub steps: Steps,
    pub microsteps: Microsteps,
}

impl Travel {
    pub const TOTAL: usize = 18;

    pub const MOVE: u32 = 0x65766f6d;

    pub const MOVR: u32 = 0x72766f6d;
}

impl Section for Travel {
    ghost sheet_row = { move_row };

    ghost of = { travel_of };

    ghost to = { travel_numbers };

    fn decode(part: &[u8]) -> Travel {
        Travel {
            steps: Steps(Number::read(part, 0)),
            microsteps: Microsteps(Number::read(part, 4)),
        }
    }

    fn first_bad(self) -> Option<usize> {
        let n = self.microsteps.0.number();
        ranges::first_false(&[true, ranges::is_signed_within(255, n)])
    }
}

// Where the drive stands; gpos sends it.
#[repr(C)]
#[derive(Clone, Copy, PartialEq, Eq, Default)]
pub struct Position {
    pub steps: Steps,
    pub microsteps: Microsteps,
    pub count: Count,
}

impl Position {
    pub const TOTAL: usize = 26;

    pub const GET: u32 = 0x736f7067;

    pub fn fresh() -> Position
        ensures { result ≡ fresh_position }
    {
        Position::default()
    }

    pub fn encode(self, out: &mut [u8])
        ensures { out.new ≡ sets out.old 0 (data_of gpos_row (position_numbers self)) }
    {
        let steps = self.steps.0.number();
        let microsteps = self.microsteps.0.number();
        let count = self.count.0.number();
        wire::lay(out, &[4, 2, 8, 6], &[steps, microsteps, count])
    }

    // What zero makes of it.
    pub fn cleared(self) -> Position
        ensures { result ≡ cleared self }
    {
        Position {
            count: self.count,
            ..Position::fresh()
        }
    }
}

impl Section for Position {
    ghost sheet_row = { gpos_row };

    ghost of = { position_of };

    ghost to = { position_numbers };

    fn decode(part: &[u8]) -> Position {
        Position {
            steps: Steps(Number::read(part, 0)),
            microsteps: Microsteps(Number::read(part, 4)),
            count: Count(Number::read(part, 6)),
        }
    }

    fn first_bad(self) -> Option<usize> {
        let n = self.microsteps.0.number();
        ranges::first_false(&[true, ranges::is_signed_within(255, n), true])
    }
}

// What spos carries, block 10; its flags are the sheet's bits, as it sends them.
#[derive(Clone, Copy)]
pub struct Spos {
    pub position: Position,
    pub flags: u8,
}

impl Spos {
    pub const TOTAL: usize = 26;

    pub const SET: u32 = 0x736f7073;

    // Where a drive stands then that stood at `old`.
    pub fn placed(self, old: Position) -> Position
        ensures { result ≡ placed self old }
    {
        let leaves_travel = self.flags % 2 == 1;
        let leaves_count = self.flags / 2 % 2 == 1;
        let mut next = self.position;
        if leaves_travel {
            next.steps = old.steps;
            next.microsteps = old.microsteps;
        }
        if leaves_count {
            next.count = old.count;
        }
        next
    }
}

impl Section for Spos {
    ghost sheet_row = { spos_row };

    ghost of = { spos_of };

    ghost to = { spos_numbers };

    fn decode(part: &[u8]) -> Spos {
        Spos {
            position: Position::decode(part),
            flags: Number::read(part, 14),
        }
    }

    fn first_bad(self) -> Option<usize> {
        let n = self.position.microsteps.0.number();
        ranges::first_false(&[
            true,
            ranges::is_signed_within(255, n),
            true,
            ranges::has_only_bits(0x03, self.flags.number()),
        ])
    }
}
