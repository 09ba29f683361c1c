// Whether two boards are the same: in what they keep, and not in the bytes of their structs, whose gaps are anything. For C and Rust, in an archive of
// its own (same_c): with a second caller of what a call needs, the compiler would make other code of the call.
#![tactic(auto)]

ghost use Rattle.std.specs.Prelude.{◌≡◌};
ghost use Rattle.same.specs.Same.{same_positions, same_boards, compared_as};

use position::Position;
use state::Board;

// By value: then the proof knows the numbers' ranges, over which this is the comparison of what gpos sends.
fn positions(a: Position, b: Position) -> bool
    ensures { result ≡ same_positions a b }
{
    a == b
}

// Whether two boards are the same: last stamp, notes, position, unfinished bytes, settings. No derived `==`: bytes of held behind the count are no part
// of a board.
#[tactic(auto, using(crate::proofs::Alike::same_is))]
fn boards(a: &Board, b: &Board) -> bool
    ensures { result ≡ same_boards a.now b.now }
{
    a.stamp == b.stamp
        && a.memory.notes == b.memory.notes
        && positions(a.memory.position, b.memory.position)
        && table::part(&a.held, 0, a.count) == table::part(&b.held, 0, b.count)
        && a.memory.settings == b.memory.settings
}

// 3 where one of them is not sound, else 0 where two boards are the same, and 1 where they are not. The name ends in the layout's number, as the
// board's functions have it.
pub fn rivertosku_same_4(a: Board, b: Board) -> u8
    ensures { result ≡ compared_as a b }
{
    match (a.judge(), b.judge()) {
        (Ok(_), Ok(_)) if boards(&a, &b) => 0,
        (Ok(_), Ok(_)) => 1,
        (Ok(_), Err(refusal)) | (Err(refusal), _) => u8::from(refusal),
    }
}
