// A trace of the bench: the record at the front of a part. A part that ends too soon is one answer of three.
#![tactic(auto)]

ghost use Rattle.std.specs.Prelude.{◌≡◌};
ghost use Rattle.trace.specs.Record.{wrong_at, reading};

use wire::Number;

// The most bytes of a record.
const LONGEST: usize = 250;

#[derive(Clone, Copy)]
pub struct Head {
    pub stamp: u32,
    pub count: usize,
}

// Why a part of a trace has no record at its front.
#[derive(Clone, Copy, Debug, PartialEq, Eq)]
pub enum NoRecord {
    // The beginning of one, as far as the part goes.
    More,
    // Nothing that any further byte makes a record.
    Bad,
}

// Whether another byte than this stands at a place; past the end stands none.
#[tactic(auto, unfolding(crate::specs::Record::wrong_at))]
fn is_wrong(part: &[u8], place: usize, byte: u8) -> bool
    ensures { result ≡ wrong_at place byte part.now }
{
    part.get(place).is_some_and(|b| *b != byte)
}

// The head of a whole record, which has 7 bytes and as many as its head counts.
#[tactic(auto, unfolding(crate::specs::Record::reading))]
pub fn read_record(part: &[u8]) -> Result<Head, NoRecord>
    ensures { result ≡ reading part.now }
{
    if is_wrong(part, 0, b'L') || is_wrong(part, 1, b'K') {
        return Err(NoRecord::Bad);
    }
    let count = usize::from(u8::read(part, 6));
    if LONGEST < count {
        return Err(NoRecord::Bad);
    }
    if part.len() < 7 + count {
        return Err(NoRecord::More);
    }
    Ok(Head {
        stamp: u32::read(part, 2),
        count,
    })
}
