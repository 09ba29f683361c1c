// Plays cases from standard input on one board and prints what each gives. A case is data, so a new one needs no proof: cases/make.py writes the
// cases (stdin) and, from a model of its own, what must be printed (stdout).
//
// A case is an operation (1 byte), number (1), room (2), stamp (4) and count (2), low byte first, and as many bytes as the count says:
//
//   "  say       prints the bytes as they are: the label of what follows
//   f  fresh     the board is fresh
//   t  take      the bytes are settings, taken back: the board is the one that they make. Prints the number
//   p  put       the bytes are put into the settings, unchecked, from the place on that the room says
//   n  note      flags, last refused block and field are three numbers of 4 bytes
//   w  where     the bytes are the position, unchecked: steps (4), microsteps (2) and count (8)
//   h  hold      the bytes are held, with zeros behind, the room is their count, and the stamp is the last one
//   c  call      the bytes are the piece. Prints number, taken, written, order, the reply (or, if it is longer, that number of the buffer's bytes)
//   r  report    the stamp is the time. Prints the number
//   d  drive     the bytes are the position that the drive reports, as in `where`. Prints the number
//   l  lay out   the settings are handed out into a buffer. Prints number, the whole buffer
//   b  block     prints the first field out of range in the block of this number, or 99 for its rule, or 0, and its data section as a get sends it
//   k  keeps     prints all the bytes that the board has room to hold, spare ones too
//   g  get       the host writes the get of the block of this number. Prints number, length, the whole buffer
//   s  set       the same with the set, the bytes being its data section
//   o  order     the same with the order of this number
//   a  answer    the host reads the bytes. Prints number, length, the answer's name and data section
//   x  checksum  prints the CRC of the bytes
//   i  integer   prints the stamp's low 16 bits as a signed number
//
// Behind what `take`, a call or a report prints: flags, last refused block and field, position, count of unfinished bytes, these bytes, last stamp.
// A position is printed as steps:microsteps:count, an order as the bench prints it. Buffers have as many bytes as the room says, 300 at most, all ee
// before. Every operation that prints ends the line, but for `say`.
// A get, a set or an order of a number that nobody has prints `no such number`. An input that cannot be read, or an output that cannot be written, ends
// the program with that error.
#![tactic(auto)]

mod arithmetic;
mod boards;
mod hosts;
mod print;

ghost use Rattle.std.specs.Prelude.{IfOk, OnErr};
ghost use Rattle.streams.specs.Streams.{IsPrefixLen, IsPartly};

use state::Board;
use std::io;
use std::io::{Read, Write};
use wire::Number;

// What stands in front of a case's bytes.
#[derive(Clone, Copy)]
struct Head {
    operation: u8,
    number: usize,
    room: usize,
    stamp: u32,
    count: usize,
}

fn head_of(case: &[u8]) -> Head {
    Head {
        operation: u8::read(case, 0),
        number: usize::from(u8::read(case, 1)),
        room: usize::from(u16::read(case, 2)),
        stamp: u32::read(case, 4),
        count: usize::from(u16::read(case, 8)),
    }
}

// The operations by their letters, in three steps, by what a case does to the board. No enum stands between: it would name each letter of the format
// once more.

// A case without a board.
fn show(out: &mut impl Write, head: Head, bytes: &[u8]) -> io::Result<()> {
    match head.operation {
        b'"' => print::say(out, bytes),
        b'g' => hosts::write_get(out, head.number, head.room),
        b's' => hosts::write_set(out, head.number, head.room, bytes),
        b'o' => hosts::write_order(out, head.number, head.room),
        b'a' => hosts::read(out, bytes),
        b'x' => arithmetic::checksum(out, bytes),
        b'i' => arithmetic::integer(out, head.stamp),
        _ => print::say(out, b"no operation\n"),
    }
}

// A call, a report, a look at the board, or a case without one; the next board.
fn ask(out: &mut impl Write, head: Head, board: Board, bytes: &[u8]) -> io::Result<Board> {
    match head.operation {
        b'c' => boards::call(out, board, head.number, head.room, head.stamp, bytes),
        b'r' => boards::report_time(out, board, head.stamp),
        b'd' => boards::report_position(out, board, bytes),
        b'l' => boards::hand_out(out, board, head.room),
        b'b' => boards::show_block(out, board, head.number),
        b'k' => boards::show_held(out, board),
        _ => {
            show(out, head, bytes)?;
            Ok(board)
        }
    }
}

// One case; the next board.
fn step(out: &mut impl Write, head: Head, board: Board, bytes: &[u8]) -> io::Result<Board> {
    match head.operation {
        b'f' => Ok(Board::fresh()),
        b't' => boards::take_back(out, bytes),
        b'p' => Ok(boards::put(board, head.room, bytes)),
        b'n' => Ok(boards::note(board, bytes)),
        b'w' => Ok(boards::place(board, bytes)),
        b'h' => Ok(boards::hold(board, head.room, head.stamp, bytes)),
        _ => ask(out, head, board, bytes),
    }
}

// Reads as many bytes as are asked for, if there are as many and there is room; how many those are.
fn read_in<R: Read>(input: &mut R, asked: usize, buffer: &mut [u8]) -> io::Result<usize>
    ensures ok { IfOk result (λ n. IsPrefixLen n buffer.new) }
    ensures err { OnErr result (IsPartly (R.remaining input.old) (R.remaining input.new) buffer.new) }
{
    let room = asked.min(buffer.len());
    streams::read_full(input, &mut buffer[..room])
}

// The case that begins so, its bytes read into a buffer; the next board.
fn step_behind(
    input: &mut impl Read,
    out: &mut impl Write,
    start: &[u8],
    board: Board,
) -> io::Result<Board> {
    let head = head_of(start);
    let mut bytes = print::BUFFER;
    let count = read_in(input, head.count, &mut bytes)?;
    step(out, head, board, &bytes[..count])
}

// Case after case, until there is none. The number bounds them, since nobody knows how long the input is.
fn main(rt: HostRuntime) -> io::Result<()> {
    let mut input = rt.stdin();
    let mut out = rt.stdout();
    let mut board = Board::fresh();
    for _ in 0..1000000 {
        let mut start = [0u8; 10];
        if streams::read_full(&mut input, &mut start)? < 10 {
            return Ok(());
        }
        board = step_behind(&mut input, &mut out, &start, board)?;
    }
    Ok(())
}
