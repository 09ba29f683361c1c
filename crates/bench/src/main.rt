// The bench: runs a trace from standard input through the receiver, and prints a line a call (sheet 01, "The bench program").
// An error of any function here is the output's, or of `main` the input's: what was printed before it stays, and it ends the program.
// A line is laid in a buffer that holds the longest, and its length is the answer: there is no heap (see `main`). That each leaves what `out` held (`Grows`)
// is of its entry and its exit, so no type of `out` can say it.
#![tactic(auto)]

ghost use Rattle.std.specs.Prelude.{true, ◌≡◌, ◌≤◌, length, IfOk};
ghost use Rattle.streams.specs.Streams.{Grows};
ghost use Rattle.rule.specs.Run.{at as atStamp};
ghost use Rattle.rule.specs.Rule.{whole_run};
ghost use Rattle.rule.specs.Step.{steps};
ghost use Rattle.rule.specs.Calls.{call as rules};
ghost use Rattle.sheet.specs.Lengths.{longest_piece};
ghost use Rattle.unit.specs.Unit.{fresh_memory};
ghost use Rattle.unit.specs.Protocol.{protocol};
ghost use Rattle.state.specs.State.{state_of, board_of};
ghost use Rattle.state.specs.Sound.{sound_board, refusal_of};
ghost use Rattle.state.specs.Call.{call_in};
ghost use Rattle.receiver.specs.Receive.{answer};
ghost use Rattle.bench.specs.Trace.{reply_room, run_in, calls_for, calls_in};

use state::{Board, Done};
use std::io;
use std::io::Write;
use streams::say;

// "Reply room is 250."
const ROOM: usize = 250;

fn say_bad<W: Write>(out: &mut W, place: usize) -> io::Result<()>
    ensures { Grows (W.contents out.old) (W.contents out.new) }
{
    let mut line = [0u8; 64];
    let n = lines::write_bad(&mut line, place);
    say(out, &line[..n])
}

// The last line.
fn say_end<W: Write>(out: &mut W, board: Board) -> io::Result<()>
    ensures { Grows (W.contents out.old) (W.contents out.new) }
{
    let mut line = [0u8; 64];
    let n = lines::write_end(&mut line, board.memory.notes.flags, board.count);
    say(out, &line[..n])
}

// One call and its line: a sound board refuses none that is no longer than a call takes.
fn call_once<W: Write>(
    out: &mut W,
    board: Board,
    stamp: u32,
    piece: &[u8],
) -> io::Result<Done<Board>>
    requires { (sound_board board ≡ true) × (length piece.now ≤ longest_piece) }
    ensures ok { IfOk result (λ call. call_in board (Ok call) ≡ answer board (rules protocol (refusal_of board) (state_of board) stamp reply_room piece.now)) }
    ensures out { Grows (W.contents out.old) (W.contents out.new) }
{
    let mut reply = [0u8; ROOM];
    let call = receiver::receive(board, piece, stamp, &mut reply).unwrap();
    let mut line = [0u8; 600];
    let n = lines::write_line(
        &mut line,
        stamp,
        call.taken,
        call.order,
        &reply[..call.written],
    );
    say(out, &line[..n])?;
    Ok(call)
}

// What bytes of a trace come to: the board that they leave, and the calls that they got.
#[derive(Clone, Copy)]
struct Ran {
    board: Board,
    calls: usize,
}

// Calls until all of a record's bytes are taken, at least once: a call on some bytes takes one at least, since the board is sound.
fn offer<W: Write>(out: &mut W, board: Board, stamp: u32, piece: &[u8]) -> io::Result<Ran>
    requires { (sound_board board ≡ true) × (board ≡ board_of (state_of board)) × (length piece.now ≤ longest_piece) }
    ensures ok { IfOk result (λ ran. (ran.board ≡ board_of (steps protocol (state_of board) (atStamp stamp piece.now)).next)
        × (ran.calls ≡ calls_for (state_of board) stamp piece.now)) }
    ensures out { Grows (W.contents out.old) (W.contents out.new) }
{
    let mut ran = Ran { board, calls: 0 };
    let mut rest = piece;
    loop {
        let call = call_once(out, ran.board, stamp, rest)?;
        ran.calls += 1;
        ran.board = call.board;
        rest = &rest[call.taken..];
        if rest.is_empty() {
            return Ok(ran);
        }
    }
}

// Record after record, until the bytes end or one is bad.
fn run<W: Write>(out: &mut W, bytes: &[u8]) -> io::Result<Ran>
    ensures ok { IfOk result (λ ran. (ran.board ≡ board_of (whole_run protocol fresh_memory 0 (run_in bytes.now)).next)
        × (ran.calls ≡ calls_in bytes.now)) }
    ensures out { Grows (W.contents out.old) (W.contents out.new) }
{
    let mut ran = Ran {
        board: Board::fresh(),
        calls: 0,
    };
    let mut rest = bytes;
    while !rest.is_empty() {
        let Ok(head) = trace::read_record(rest) else {
            say_bad(out, bytes.len() - rest.len())?;
            return Ok(ran);
        };
        let (piece, behind) = rest[7..].split_at(head.count);
        let offered = offer(out, ran.board, head.stamp, piece)?;
        ran.calls += offered.calls;
        ran.board = offered.board;
        rest = behind;
    }
    Ok(ran)
}

// The input has a buffer of its own and no Vec: so the program stands on C's reading and writing alone, and not on its heap.
fn main(rt: HostRuntime) -> io::Result<()> {
    let mut input = [0u8; 60001];
    let n = streams::read_full(&mut rt.stdin(), &mut input)?;
    let mut out = rt.stdout();
    if 60000 < n {
        return say(&mut out, b"too long\n");
    }
    let ran = run(&mut out, &input[..n])?;
    say_end(&mut out, ran.board)
}
