// The receiver's functions as C and Rust link them: those of the crate board, with their clauses. `rt lib` makes a static library of it, which
// tools/built lays down as target/staticlib/libboard.a.
// One function for each name of C, which takes no type parameter; each calls the library's of its name, since a crate is a library or an archive.
#![tactic(auto)]

ghost use Rattle.std.specs.Prelude.{◌≡◌, length};
ghost use Rattle.unit.specs.Protocol.{fresh_state};
ghost use Rattle.state.specs.State.{board_of};
ghost use Rattle.state.specs.Parts.{board_at};
ghost use Rattle.state.specs.Sound.{refusal_of};
ghost use Rattle.clock.specs.Report.{reported};
ghost use Rattle.drive.specs.Report.{reported as located};
ghost use Rattle.flash.specs.Flash.{out_number, handed, taken_back};
ghost use Rattle.board.specs.Answer.{left_in, Answered};

use board::Answer;
use position::Position;
use state::{Board, Report, Rest};

// A board that has taken nothing yet.
#[unsafe(no_mangle)]
pub extern "C" fn rivertosku_fresh_4() -> Board
    ensures { result ≡ board_of fresh_state }
{
    board::rivertosku_fresh_4()
}

// One call: a piece of bytes that share a stamp, and room for the replies. The board's arrays are lent, and changed where they stand.
#[unsafe(no_mangle)]
pub extern "C" fn rivertosku_receive_4(
    table: &mut [u8; table::SIZE],
    held: &mut [u8; sheet::FRAME],
    rest: Rest,
    piece: &[u8],
    stamp: u32,
    reply: &mut [u8],
) -> Answer
    ensures { Answered (board_at table.old held.old rest) stamp piece.now reply.old (left_in table.new held.new result) reply.new }
{
    board::rivertosku_receive_4(table, held, rest, piece, stamp, reply)
}

// One report of the time: what is unfinished is dropped where its last byte is too long ago.
#[unsafe(no_mangle)]
pub extern "C" fn rivertosku_report_clock_4(board: Board, now: u32) -> Report
    ensures { result ≡ reported board now }
{
    board::rivertosku_report_clock_4(board, now)
}

// One report of the position: it is the one reported, and nothing else changes.
#[unsafe(no_mangle)]
pub extern "C" fn rivertosku_report_position_4(board: Board, position: Position) -> Report
    ensures { result ≡ located board position }
{
    board::rivertosku_report_position_4(board, position)
}

// 0, or 3 where the board is not sound.
#[unsafe(no_mangle)]
pub extern "C" fn rivertosku_judge_4(board: Board) -> u8
    ensures { result ≡ refusal_of board }
{
    board::rivertosku_judge_4(board)
}

// For the flash writer: the table of a board's settings, at the front of out; a refusal writes nothing.
#[unsafe(no_mangle)]
pub extern "C" fn rivertosku_hand_out_4(board: Board, out: &mut [u8]) -> u8
    ensures { (result ≡ out_number board (length out.old)) × (out.new ≡ handed board out.old) }
{
    board::rivertosku_hand_out_4(board, out)
}

// A board of a stored table; a fresh one where the table is refused.
#[unsafe(no_mangle)]
pub extern "C" fn rivertosku_take_back_4(bytes: &[u8]) -> Report
    ensures { result ≡ taken_back bytes.now }
{
    board::rivertosku_take_back_4(bytes)
}
