// The receiver as C and Rust link it, by board_c: functions of the crates below, the order as its number and its values.
// The names end in the number of the structs' layout: a header of another layout asks for other names, and does not link.
#![tactic(auto)]

ghost use Rattle.std.specs.Prelude.{◌≡◌, length};
ghost use Rattle.unit.specs.Protocol.{fresh_state};
ghost use Rattle.state.specs.State.{board_of};
ghost use Rattle.state.specs.Parts.{board_at};
ghost use Rattle.state.specs.Sound.{refusal_of};
ghost use Rattle.state.specs.Refused.{report_in};
ghost use Rattle.clock.specs.Report.{reported};
ghost use Rattle.drive.specs.Report.{reported as located};
ghost use Rattle.flash.specs.Flash.{out_number, handed, taken_back};
ghost use Rattle.board.specs.Answer.{left_in, Answered};

use position::{Microsteps, Position, Steps};
use state::{Board, Refusal, Report, Rest};

// What a call answers, flat and by numbers, as C gets it: an order that carries no steps and microsteps has 0 and 0.
#[repr(C)]
#[derive(Clone, Copy)]
pub struct Answer {
    pub rest: Rest,
    pub taken: usize,
    pub written: usize,
    pub steps: Steps,
    pub microsteps: Microsteps,
    pub number: u8,
    pub order: u8,
}

// What a report to a board answers.
fn report(board: Board, answer: Result<Board, Refusal>) -> Report
    ensures { result ≡ report_in board answer }
{
    Report {
        number: state::number_in(&answer),
        board: answer.unwrap_or(board),
    }
}

// A board that has taken nothing yet.
pub fn rivertosku_fresh_4() -> Board
    ensures { result ≡ board_of fresh_state }
{
    Board::fresh()
}

// One call: a piece of bytes that share a stamp, and room for the replies. The board's arrays are lent, and changed where they stand.
pub fn rivertosku_receive_4(
    table: &mut [u8; table::SIZE],
    held: &mut [u8; sheet::FRAME],
    rest: Rest,
    piece: &[u8],
    stamp: u32,
    reply: &mut [u8],
) -> Answer
    ensures { Answered (board_at table.old held.old rest) stamp piece.now reply.old (left_in table.new held.new result) reply.new }
{
    match receiver::receive_lent(table, held, rest, piece, stamp, reply) {
        Ok(done) => Answer {
            rest: done.board,
            taken: done.taken,
            written: done.written,
            steps: done.order.steps(),
            microsteps: done.order.microsteps(),
            number: 0,
            order: done.order.number(),
        },
        Err(refusal) => Answer {
            rest,
            taken: 0,
            written: 0,
            steps: Steps(0),
            microsteps: Microsteps(0),
            number: u8::from(refusal),
            order: 0,
        },
    }
}

// One report of the time: what is unfinished is dropped where its last byte is too long ago.
pub fn rivertosku_report_clock_4(board: Board, now: u32) -> Report
    ensures { result ≡ reported board now }
{
    report(board, clock::report_time(board, now))
}

// One report of the position: it is the one reported, and nothing else changes.
pub fn rivertosku_report_position_4(board: Board, position: Position) -> Report
    ensures { result ≡ located board position }
{
    report(board, drive::report_position(board, position))
}

// 0, or 3 where the board is not sound: a number, as C gets it.
pub fn rivertosku_judge_4(board: Board) -> u8
    ensures { result ≡ refusal_of board }
{
    state::number_in(&board.judge())
}

// For the flash writer: the table of a board's settings, at the front of out; a refusal writes nothing.
pub fn rivertosku_hand_out_4(board: Board, out: &mut [u8]) -> u8
    ensures { (result ≡ out_number board (length out.old)) × (out.new ≡ handed board out.old) }
{
    state::number_in(&flash::hand_out(board, out))
}

// A board of a stored table; a fresh one where the table is refused.
pub fn rivertosku_take_back_4(bytes: &[u8]) -> Report
    ensures { result ≡ taken_back bytes.now }
{
    report(Board::fresh(), flash::take_back(bytes))
}
