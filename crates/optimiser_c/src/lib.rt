// The host's writer and reader as C and Rust link them: the functions of the crate optimiser, with their clauses (target/staticlib/liboptimiser.a).
// One function for each name of C, which takes no type parameter; each calls the library's of its name, since a crate is a library or an archive.
#![tactic(auto)]

ghost use Rattle.std.specs.Prelude.{◌≡◌};
ghost use Rattle.host.specs.Names.{block_at, order_at};
ghost use Rattle.answer.specs.Answer.{first_answer};
ghost use Rattle.optimiser.specs.Flat.{get_asked, set_asked, order_asked, FlatWrites, flat_read};

use blocks::Blocks;
use optimiser::{FlatAnswer, FlatWritten};

// The frame of a get of the block of this number.
#[unsafe(no_mangle)]
pub extern "C" fn rivertosku_write_get_1(block: u8, out: &mut [u8]) -> FlatWritten
    ensures { FlatWrites (get_asked (block_at block)) out.old result out.new }
{
    optimiser::rivertosku_write_get_1(block, out)
}

// The frame of a set of the block of this number, with its fields among the blocks.
#[unsafe(no_mangle)]
pub extern "C" fn rivertosku_write_set_1(block: u8, blocks: Blocks, out: &mut [u8]) -> FlatWritten
    ensures { FlatWrites (set_asked blocks (block_at block)) out.old result out.new }
{
    optimiser::rivertosku_write_set_1(block, blocks, out)
}

// The frame of the order of this number.
#[unsafe(no_mangle)]
pub extern "C" fn rivertosku_write_order_1(order: u8, out: &mut [u8]) -> FlatWritten
    ensures { FlatWrites (order_asked (order_at order)) out.old result out.new }
{
    optimiser::rivertosku_write_order_1(order, out)
}

// One answer from the front of what the board sent.
#[unsafe(no_mangle)]
pub extern "C" fn rivertosku_read_1(bytes: &[u8]) -> FlatAnswer
    ensures { result ≡ flat_read (first_answer bytes.now) }
{
    optimiser::rivertosku_read_1(bytes)
}
