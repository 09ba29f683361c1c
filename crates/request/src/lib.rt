// What the optimiser can ask, and its frame (02, P1).
#![tactic(auto)]

ghost use Rattle.std.specs.Prelude.{◌≡◌};
ghost use Rattle.wire.specs.Numbers.{le_bytes};
ghost use Rattle.fields.specs.Fields.{first_bad_of};
ghost use Rattle.request.specs.Request.{frame_of, set_frame, bad_in, refusal_number, Writes};

use fields::Fields;
use host::{Block, Order};
use wire::Number;

// No request has an invalid name.
#[derive(Clone, Copy)]
pub enum Request {
    Get(Block),
    Set(Fields),
    Give(Order),
}

// Why a request is not written, by 02's numbers: a value that the board would refuse; a buffer shorter than the frame.
#[derive(Clone, Copy, Debug, PartialEq, Eq)]
pub enum Refused {
    OutOfRange = 3,
    TooShort = 4,
}

// By hand with `as`, since nothing derives it.
impl From<Refused> for u8 {
    ghost from_gives = { λ refused number. number ≡ refusal_number refused };

    fn from(refused: Refused) -> u8 {
        refused as u8
    }
}

// A frame that is a name only.
#[tactic(auto, using(wire::proofs::Numbers::length_le_bytes, crate::proofs::Writes::says_too_short, crate::proofs::Writes::says_frame))]
fn write_name(name: u32, out: &mut [u8]) -> Result<usize, Refused>
    ensures { Writes 0 (le_bytes 4 name) out.old result out.new }
{
    if out.len() < 4 {
        return Err(Refused::TooShort);
    }
    wire::put(out, 0, 4, name.number());
    Ok(4)
}

// A set's frame. The data section is laid out aside, so that its CRC is taken of what is sent: in a buffer of the longest, as there is no heap.
fn write_set(set: Fields, out: &mut [u8]) -> Result<usize, Refused>
    ensures { Writes (first_bad_of set) (set_frame set) out.old result out.new }
{
    if set.first_bad().is_some() {
        return Err(Refused::OutOfRange);
    }
    let head = set.block().head();
    if out.len() < head.total {
        return Err(Refused::TooShort);
    }
    let mut section = [0u8; host::FRAME];
    set.encode(&mut section);
    frame::put(out, head.set, &section[..head.total - 6]);
    Ok(head.total)
}

// A request's frame at the front of a lent buffer, and its length. A refusal writes nothing, and every byte past the frame is kept.
pub fn write(request: Request, out: &mut [u8]) -> Result<usize, Refused>
    ensures { Writes (bad_in request) (frame_of request) out.old result out.new }
{
    match request {
        Request::Get(block) => write_name(block.head().get, out),
        Request::Set(set) => write_set(set, out),
        Request::Give(order) => write_name(order.name(), out),
    }
}
