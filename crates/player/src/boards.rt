// The board: made in any state, called, told the time and the drive's position, its settings handed out and taken back, shown. No other file reads or
// writes its fields.
// A refusal is printed as its number in 01 or 02, 0 for none, a call's with zeros beside it: the stored output has this form.
use crate::print;
use orders::Order;
use position::Position;
use sheet::Section;
use state::{Board, Done, Refusal};
use std::io;
use std::io::Write;
use table::Table;
use unit::Notes;
use wire::Number;

pub fn put(mut board: Board, place: usize, bytes: &[u8]) -> Board {
    wire::copy(&mut board.memory.settings.bytes, place, bytes);
    board
}

// `as usize` in these three, since usize has no From of u32, and a TryFrom would only be unwrapped.
fn notes_in(numbers: &[u8]) -> Notes {
    Notes {
        flags: u32::read(numbers, 0) as usize,
        block: u32::read(numbers, 4) as usize,
        field: u32::read(numbers, 8) as usize,
    }
}

// note and place set one field each, unchecked: one setter for both would take a closure, and be no plainer.
pub fn note(mut board: Board, numbers: &[u8]) -> Board {
    board.memory.notes = notes_in(numbers);
    board
}

pub fn place(mut board: Board, numbers: &[u8]) -> Board {
    board.memory.position = Position::decode(numbers);
    board
}

pub fn hold(board: Board, count: usize, stamp: u32, bytes: &[u8]) -> Board {
    let mut held = [0u8; sheet::FRAME];
    wire::copy(&mut held, 0, bytes);
    Board {
        held,
        count,
        stamp,
        ..board
    }
}

fn show_notes(out: &mut impl Write, notes: Notes) -> io::Result<()> {
    write!(out, " {} {} {}", notes.flags, notes.block, notes.field)
}

fn show_position(out: &mut impl Write, position: Position) -> io::Result<()> {
    write!(
        out,
        " {}:{}:{}",
        position.steps.0, position.microsteps.0, position.count.0
    )
}

fn show_line(out: &mut impl Write, held: &[u8], count: usize, stamp: u32) -> io::Result<()> {
    print::number(out, count)?;
    print::beginning(out, held, count)?;
    write!(out, " {stamp}")?;
    print::say(out, b"\n")
}

// What a call or a report leaves, the settings apart.
fn show_rest(out: &mut impl Write, board: Board) -> io::Result<Board> {
    let notes = board.memory.notes;
    show_notes(out, notes)?;
    let position = board.memory.position;
    show_position(out, position)?;
    show_line(out, &board.held, board.count, board.stamp)?;
    Ok(board)
}

// The reply, or the buffer to an extent that is longer.
fn show_reply(
    out: &mut impl Write,
    buffer: &[u8],
    written: usize,
    extent: usize,
) -> io::Result<()> {
    print::beginning(out, buffer, written.max(extent))
}

// As the bench prints it: 20 bytes hold the longest.
fn show_order(out: &mut impl Write, order: Order) -> io::Result<()> {
    let mut digits = [0u8; 20];
    let n = lines::write_order(&mut digits, 0, order);
    print::say(out, b" ")?;
    print::say(out, &digits[..n])
}

fn show_call(
    out: &mut impl Write,
    number: u8,
    taken: usize,
    written: usize,
    order: Order,
) -> io::Result<()> {
    write!(out, " {number} {taken} {written}")?;
    show_order(out, order)
}

// extent, room and stamp are a case's number, room and stamp: this file knows no format. A refused call leaves the board as it was.
pub fn call(
    out: &mut impl Write,
    board: Board,
    extent: usize,
    room: usize,
    stamp: u32,
    piece: &[u8],
) -> io::Result<Board> {
    let mut buffer = print::BUFFER;
    let size = room.min(buffer.len());
    let answer = receiver::receive(board, piece, stamp, &mut buffer[..size]);
    let number = state::number_in(&answer);
    let done = answer.unwrap_or(Done {
        board,
        taken: 0,
        written: 0,
        order: Order::Nothing,
    });
    show_call(out, number, done.taken, done.written, done.order)?;
    show_reply(out, &buffer, done.written, extent)?;
    show_rest(out, done.board)
}

// A refused report leaves the board as it was.
fn show_report(
    out: &mut impl Write,
    board: Board,
    answer: Result<Board, Refusal>,
) -> io::Result<Board> {
    print::number(out, usize::from(state::number_in(&answer)))?;
    show_rest(out, answer.unwrap_or(board))
}

pub fn report_time(out: &mut impl Write, board: Board, now: u32) -> io::Result<Board> {
    show_report(out, board, clock::report_time(board, now))
}

pub fn report_position(out: &mut impl Write, board: Board, numbers: &[u8]) -> io::Result<Board> {
    let answer = drive::report_position(board, Position::decode(numbers));
    show_report(out, board, answer)
}

fn show_buffer(out: &mut impl Write, number: u8, buffer: &[u8], room: usize) -> io::Result<()> {
    print::number(out, usize::from(number))?;
    print::beginning(out, buffer, room)?;
    print::say(out, b"\n")
}

pub fn hand_out(out: &mut impl Write, board: Board, room: usize) -> io::Result<Board> {
    let mut buffer = print::BUFFER;
    let size = room.min(buffer.len());
    let number = state::number_in(&flash::hand_out(board, &mut buffer[..size]));
    show_buffer(out, number, &buffer, size)?;
    Ok(board)
}

pub fn take_back(out: &mut impl Write, bytes: &[u8]) -> io::Result<Board> {
    show_report(out, Board::fresh(), flash::take_back(bytes))
}

fn show_section(out: &mut impl Write, settings: Table, number: usize) -> io::Result<()> {
    let mut section = [0xeeu8; sheet::FRAME];
    table::get(&settings.bytes, number, &mut section);
    print::number(out, table::bad_in(number, &section).unwrap_or(0))?;
    print::hexadecimal(out, &section)?;
    print::say(out, b"\n")
}

pub fn show_block(out: &mut impl Write, board: Board, number: usize) -> io::Result<Board> {
    show_section(out, board.memory.settings, number)?;
    Ok(board)
}

pub fn show_held(out: &mut impl Write, board: Board) -> io::Result<Board> {
    print::hexadecimal(out, &board.held)?;
    print::say(out, b"\n")?;
    Ok(board)
}
