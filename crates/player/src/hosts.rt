// The host: a request written, an answer read. No other file names what the host has.
// A refusal is printed as 02's number, 0 for none, with zeros beside it: the stored output has this form.
use crate::print;
use answer::{Answer, Reading, Unread};
use fields::Fields;
use host::{Block, Order};
use request::{Refused, Request};
use std::io;
use std::io::Write;
use wire::Number;

fn verdict(out: &mut impl Write, number: usize, length: usize) -> io::Result<()> {
    print::number(out, number)?;
    print::number(out, length)
}

fn show_written(out: &mut impl Write, written: Result<usize, Refused>) -> io::Result<()> {
    match written {
        Ok(length) => verdict(out, 0, length),
        Err(refused) => verdict(out, usize::from(u8::from(refused)), 0),
    }
}

fn write(out: &mut impl Write, asked: Request, room: usize) -> io::Result<()> {
    let mut buffer = print::BUFFER;
    let size = room.min(buffer.len());
    let written = request::write(asked, &mut buffer[..size]);
    show_written(out, written)?;
    print::beginning(out, &buffer, size)?;
    print::say(out, b"\n")
}

// A number that no block or order has.
fn nobody(out: &mut impl Write) -> io::Result<()> {
    print::say(out, b"no such number\n")
}

// One function for each kind of request: one for all would be told which.
pub fn write_get(out: &mut impl Write, number: usize, room: usize) -> io::Result<()> {
    let Some(block) = Block::at(number) else {
        return nobody(out);
    };
    write(out, Request::Get(block), room)
}

pub fn write_set(
    out: &mut impl Write,
    number: usize,
    room: usize,
    section: &[u8],
) -> io::Result<()> {
    let Some(block) = Block::at(number) else {
        return nobody(out);
    };
    write(out, Request::Set(Fields::decode(block, section)), room)
}

pub fn write_order(out: &mut impl Write, number: usize, room: usize) -> io::Result<()> {
    let Some(order) = Order::at(number) else {
        return nobody(out);
    };
    write(out, Request::Give(order), room)
}

// Four letters, behind a space.
fn letters(out: &mut impl Write, name: u32) -> io::Result<()> {
    let mut text = [0u8; 4];
    wire::put(&mut text, 0, 4, name.number());
    print::say(out, b" ")?;
    print::say(out, &text)
}

fn show_data(out: &mut impl Write, data: Fields) -> io::Result<()> {
    letters(out, data.block().head().get)?;
    let mut section = [0xeeu8; host::FRAME];
    data.encode(&mut section);
    print::hexadecimal(out, &section)
}

fn show_answer(out: &mut impl Write, read: Answer) -> io::Result<()> {
    match read {
        Answer::Zero => print::say(out, b" zero"),
        Answer::SetEcho(block) => letters(out, block.head().set),
        Answer::OrderEcho(order) => letters(out, order.name()),
        Answer::Data(data) => show_data(out, data),
        Answer::Errc => letters(out, sheet::names::ERRC),
        Answer::Errd => letters(out, sheet::names::ERRD),
        Answer::Errv => letters(out, sheet::names::ERRV),
    }
}

fn show_reading(out: &mut impl Write, read: Result<Reading, Unread>) -> io::Result<()> {
    match read {
        Ok(Reading { size, answer }) => {
            verdict(out, 0, size)?;
            show_answer(out, answer)
        }
        Err(unread) => verdict(out, usize::from(u8::from(unread)), 0),
    }
}

pub fn read(out: &mut impl Write, bytes: &[u8]) -> io::Result<()> {
    show_reading(out, answer::read(bytes))?;
    print::say(out, b"\n")
}
