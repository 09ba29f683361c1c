// spos, gpos and zero (02, P5): the position is set, sent and cleared.
ghost use Rattle.names.specs.Names.{name_of};
ghost use Rattle.unit.specs.Unit.{places, finds, clears, JudgesAny};

use crate::carried;
use position::{Position, Spos};
use unit::{Judged, Slate};

// Checked as a set is. Its microsteps are tested also where a flag leaves the board's own.
#[tactic(auto, unfolding(unit::specs::Unit::places, unit::specs::Unit::checked))]
pub fn answer_spos(slate: Slate, unit: &[u8], reply: &mut [u8]) -> Judged
    ensures { JudgesAny (λ m. places m unit.now) slate reply.old result reply.new }
{
    match carried::<Spos>(slate, 10, unit, reply) {
        Ok(spos) => {
            unit::echo(unit, reply);
            let position = spos.placed(slate.position);
            Slate { position, ..slate }.quiet()
        }
        Err(refused) => refused,
    }
}

// The position as it stands, laid out aside as a get's section is, in a buffer of the longest, as there is no heap: one function for both would take a
// closure that writes a lent buffer.
pub fn answer_gpos(slate: Slate, name: u32, reply: &mut [u8]) -> Judged
    ensures { JudgesAny (λ m. finds m name) slate reply.old result reply.new }
{
    let mut section = [0u8; sheet::FRAME];
    slate.position.encode(&mut section);
    let n = Position::TOTAL - 6;
    frame::put(reply, name, &section[..n]);
    slate.quiet()
}

pub fn answer_zero(slate: Slate, unit: &[u8], reply: &mut [u8]) -> Judged
    ensures { JudgesAny (λ m. clears m (name_of unit.now)) slate reply.old result reply.new }
{
    unit::echo(unit, reply);
    let position = slate.position.cleared();
    Slate { position, ..slate }.quiet()
}
