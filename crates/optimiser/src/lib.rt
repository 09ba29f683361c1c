// The host's writer and reader as C and Rust link them, by optimiser_c: flat, a block or an order by its number of 01.
// The names end in the number of the structs' layout: a header of another layout asks for other names, and does not link. One function for each name.
#![tactic(auto)]

ghost use Rattle.std.specs.Prelude.{◌≡◌, option_to_list};
ghost use Rattle.host.specs.Names.{block_at, order_at};
ghost use Rattle.request.specs.Request.{written_as};
ghost use Rattle.answer.specs.Answer.{read_as, first_answer};
ghost use Rattle.optimiser.specs.Flat.{flat_written, get_asked, set_asked, order_asked, FlatWrites, plain_answer, flat_read};

use answer::{Answer, Reading};
use blocks::Blocks;
use host::{Block, Order};
use request::{Refused, Request};

// Kept flat, with a number: the C interface.
// 02's number, and the frame's length; or 9, a number of no block or order, which a request of the library cannot have.
#[repr(C)]
#[derive(Clone, Copy)]
pub struct FlatWritten {
    pub number: u8,
    pub size: usize,
}

// Kept flat, with numbers: the C interface.
// 02's number, the length, and the kind of the answer: 1 a zero byte, 2 the echo of a set, 3 the echo of an order, 4 data, 5 errc, 6 errd,
// 7 errv, 0 none. What is the number of its block or order, or 0. Data stands in its block, all other blocks are fresh.
#[repr(C)]
#[derive(Clone, Copy)]
pub struct FlatAnswer {
    pub number: u8,
    pub kind: u8,
    pub what: u8,
    pub size: usize,
    pub blocks: Blocks,
}

fn flat_written(written: Result<usize, Refused>) -> FlatWritten
    ensures { result ≡ flat_written (written_as written) }
{
    match written {
        Ok(size) => FlatWritten { number: 0, size },
        Err(refused) => FlatWritten {
            number: u8::from(refused),
            size: 0,
        },
    }
}

// The frame of what was asked by a number; for a number of no block or order nothing is written.
fn write(asked: Option<Request>, out: &mut [u8]) -> FlatWritten
    ensures { FlatWrites (option_to_list asked) out.old result out.new }
{
    match asked {
        Some(request) => flat_written(request::write(request, out)),
        None => FlatWritten { number: 9, size: 0 },
    }
}

// The frame of a get of the block of this number.
pub fn rivertosku_write_get_1(block: u8, out: &mut [u8]) -> FlatWritten
    ensures { FlatWrites (get_asked (block_at block)) out.old result out.new }
{
    write(Block::at(usize::from(block)).map(Request::Get), out)
}

// The frame of a set of the block of this number, with its fields among the blocks.
pub fn rivertosku_write_set_1(block: u8, blocks: Blocks, out: &mut [u8]) -> FlatWritten
    ensures { FlatWrites (set_asked blocks (block_at block)) out.old result out.new }
{
    let asked = Block::at(usize::from(block)).map(|known| Request::Set(blocks.fields_at(known)));
    write(asked, out)
}

// The frame of the order of this number.
pub fn rivertosku_write_order_1(order: u8, out: &mut [u8]) -> FlatWritten
    ensures { FlatWrites (order_asked (order_at order)) out.old result out.new }
{
    write(Order::at(usize::from(order)).map(Request::Give), out)
}

// An answer without data.
fn plain(number: u8, size: usize, kind: u8, what: u8) -> FlatAnswer
    ensures { result ≡ plain_answer number size kind what }
{
    FlatAnswer {
        number,
        kind,
        what,
        size,
        blocks: Blocks::fresh(),
    }
}

fn flat_answer(reading: Reading) -> FlatAnswer
    ensures { result ≡ flat_read (read_as (Ok reading)) }
{
    let Reading { size, answer } = reading;
    match answer {
        Answer::Zero => plain(0, size, 1, 0),
        Answer::SetEcho(block) => plain(0, size, 2, u8::from(block)),
        Answer::OrderEcho(order) => plain(0, size, 3, u8::from(order)),
        Answer::Data(fields) => FlatAnswer {
            blocks: Blocks::with_fields(fields),
            ..plain(0, size, 4, u8::from(fields.block()))
        },
        Answer::Errc => plain(0, size, 5, 0),
        Answer::Errd => plain(0, size, 6, 0),
        Answer::Errv => plain(0, size, 7, 0),
    }
}

// One answer from the front of what the board sent.
pub fn rivertosku_read_1(bytes: &[u8]) -> FlatAnswer
    ensures { result ≡ flat_read (first_answer bytes.now) }
{
    match answer::read(bytes) {
        Ok(reading) => flat_answer(reading),
        Err(unread) => plain(u8::from(unread), 0, 0, 0),
    }
}
