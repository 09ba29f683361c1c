// What the program prints, to any writer, and the buffers it is printed of. An error is the writer's. No struct holds the writer: it would be handed
// on as the writer is. Buffers have a fixed size, since the programs use no heap.
use std::io;
use std::io::Write;
pub use streams::say;

// What is lent to be written into, or a case's bytes are read into: a table and more, in fixed memory as the receiver's callers have it.
pub const BUFFER: [u8; 300] = [0xee; 300];

pub fn number(out: &mut impl Write, n: usize) -> io::Result<()> {
    write!(out, " {n}")
}

// The bytes in hexadecimal, or `-`.
pub fn hexadecimal(out: &mut impl Write, part: &[u8]) -> io::Result<()> {
    let mut digits = [0u8; 600];
    let n = text::write_reply(&mut digits, 0, part);
    say(out, b" ")?;
    say(out, &digits[..n])
}

// The first n of the bytes, as many as there are.
pub fn beginning(out: &mut impl Write, part: &[u8], n: usize) -> io::Result<()> {
    hexadecimal(out, &part[..n.min(part.len())])
}
