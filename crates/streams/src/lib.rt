// A text written whole, and a buffer read full, over any writer and any reader. An error is the writer's own or the reader's, or that a write took
// nothing; there is no other.
#![tactic(auto)]

ghost use Rattle.std.specs.Prelude.{IfOk};
ghost use Rattle.streams.specs.Streams.{Says, IsPrefixLen, Fills};

use std::io;
use std::io::{ErrorKind, Read, Write};

// Writes all of the text, or stops at the first write that fails or takes nothing. Not `write_all`: std does not say what its error leaves.
pub fn say<W: Write>(out: &mut W, text: &[u8]) -> io::Result<()>
    ensures { Says (W.contents out.old) (W.contents out.new) result text.now }
{
    let mut rest = text;
    while !rest.is_empty() {
        match out.write(rest)? {
            0 => return Err(io::Error::from(ErrorKind::WriteZero)),
            n => rest = &rest[n..],
        }
    }
    Ok(())
}

// Reads until the buffer is full or the input ends, or stops at the first read that fails. The answer is how many bytes stand at its front.
// Not `read_exact`: std does not say what its error leaves, and an input that ends is one. It counts in `done`, since the count is the answer.
pub fn read_full<R: Read>(input: &mut R, buffer: &mut [u8]) -> io::Result<usize>
    ensures count { IfOk result (λ n. IsPrefixLen n buffer.new) }
    ensures bytes { Fills (R.remaining input.old) (R.remaining input.new) result buffer.new }
{
    let mut done = 0;
    while done < buffer.len() {
        match input.read(&mut buffer[done..])? {
            0 => break,
            n => done += n,
        }
    }
    Ok(done)
}
