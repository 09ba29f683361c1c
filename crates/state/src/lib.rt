// The board: what it keeps between calls, when that is sound, and how it starts.
#![tactic(auto)]

ghost use Rattle.std.specs.Prelude.{[], ◌≡◌, take};
ghost use Rattle.rule.specs.Rule.{state_at};
ghost use Rattle.unit.specs.Protocol.{sound_memory, fresh_state};
ghost use Rattle.state.specs.State.{board_of};
ghost use Rattle.state.specs.Parts.{board_at, rest_of};
ghost use Rattle.state.specs.Refused.{number_of, number_in};
ghost use Rattle.state.specs.Sound.{wanted_by, wanting, verdict_of, verdict_at, verdict_in};

use names::Kind;
use orders::Order;
use position::Position;
use sheet::Section;
use table::Table;
use unit::{Memory, Notes};
use wire::Number;

// The bytes of the unfinished unit stand in front of held, and count tells how many: in fixed memory, as C has it.
#[repr(C)]
#[derive(Clone, Copy)]
pub struct Board {
    pub memory: Memory,
    pub held: [u8; sheet::FRAME],
    pub count: usize,
    pub stamp: u32,
}

// A board but for its two arrays: what is handed over by value where those are lent.
#[repr(C)]
#[derive(Clone, Copy)]
pub struct Rest {
    pub notes: Notes,
    pub position: Position,
    pub count: usize,
    pub stamp: u32,
}

// What a call that is not refused answers: of a board, or of its rest where the arrays are lent.
#[derive(Clone, Copy)]
pub struct Done<B> {
    pub board: B,
    pub taken: usize,
    pub written: usize,
    pub order: Order,
}

// What a report answers to C: a refused one the board as it was.
#[repr(C)]
#[derive(Clone, Copy)]
pub struct Report {
    pub number: u8,
    pub board: Board,
}

// Why a board, or what is told or lent to it, is refused: a length that is not taken, too little room, a state that is not sound, a field out of range.
#[derive(Clone, Copy, PartialEq, Eq, Debug)]
pub enum Refusal {
    Length = 1,
    Room = 2,
    Unsound = 3,
    Range = 5,
}

// By hand with `as`, since nothing derives it.
impl From<Refusal> for u8 {
    ghost from_gives = { λ refusal number. number ≡ number_of refusal };

    fn from(refusal: Refusal) -> u8 {
        refusal as u8
    }
}

// 01's number of an answer, 0 where it is no refusal.
pub fn number_in<T>(answer: &Result<T, Refusal>) -> u8
    ensures { result ≡ number_in answer.now }
{
    match answer {
        Ok(_) => 0,
        Err(refusal) => u8::from(*refusal),
    }
}

// How long the unit is that n bytes in held begin; none where they are neither none nor a true beginning of one unit.
fn wanted(held: &[u8; sheet::FRAME], n: usize) -> Option<usize>
    ensures { result ≡ wanting (wanted_by (take n held.now)) }
{
    if n == 0 {
        return Some(1);
    }
    if sheet::FRAME < n || held[0] == 0 {
        return None;
    }
    if n < 4 {
        return Some(4);
    }
    let kind = Kind::of(held[0], u32::read(held, 0));
    let span = kind.span();
    (n < span).then_some(span)
}

// The sheets' list of what a sound state's fields are.
#[tactic(auto, unfolding(unit::specs::Protocol::sound_memory))]
fn is_sound(table: &[u8; table::SIZE], rest: Rest) -> bool
    ensures { result ≡ sound_memory (board_at table.now [] rest).memory }
{
    let position = rest.position;
    rest.notes.flags <= 7 && position.first_bad().is_none() && table::is_sound(table)
}

// Of a board in parts, how long the unit is that a sound one has begun, as far as its bytes tell, so that nobody looks it up again.
pub fn judge_parts(table: &[u8; table::SIZE], held: &[u8], rest: Rest) -> Result<usize, Refusal>
    ensures { verdict_in result ≡ verdict_at table.now held.now rest }
{
    let Ok(held) = <&[u8; sheet::FRAME]>::try_from(held) else {
        return Err(Refusal::Unsound);
    };
    if let Some(wants) = wanted(held, rest.count)
        && is_sound(table, rest)
    {
        return Ok(wants);
    }
    Err(Refusal::Unsound)
}

impl Board {
    // A board with nothing unfinished.
    #[tactic(auto, unfolding(crate::specs::State::padded))]
    pub fn idle(memory: Memory, stamp: u32) -> Board
        ensures { result ≡ board_of (state_at memory [] stamp) }
    {
        Board {
            memory,
            held: [0u8; sheet::FRAME],
            count: 0,
            stamp,
        }
    }

    // A board that has taken nothing yet.
    pub fn fresh() -> Board
        ensures { result ≡ board_of fresh_state }
    {
        let memory = Memory {
            settings: Table::fresh(),
            notes: Notes::default(),
            position: Position::fresh(),
        };
        Board::idle(memory, 0)
    }

    // A board put together of its parts, and its parts but for the arrays: field by field, since C lends them apart.
    pub fn joined(table: [u8; table::SIZE], held: [u8; sheet::FRAME], rest: Rest) -> Board
        ensures { result ≡ board_at table held rest }
    {
        let memory = Memory {
            settings: Table { bytes: table },
            notes: rest.notes,
            position: rest.position,
        };
        Board {
            memory,
            held,
            count: rest.count,
            stamp: rest.stamp,
        }
    }

    pub fn rest(&self) -> Rest
        ensures { result ≡ rest_of self.now }
    {
        Rest {
            notes: self.memory.notes,
            position: self.memory.position,
            count: self.count,
            stamp: self.stamp,
        }
    }

    // How long the unit is that a sound board has begun; a board that is not sound every public entry refuses.
    pub fn judge(&self) -> Result<usize, Refusal>
        ensures { verdict_in result ≡ verdict_of self.now }
    {
        judge_parts(&self.memory.settings.bytes, &self.held, self.rest())
    }
}
