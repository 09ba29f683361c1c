// The answer to one whole unit, whatever its kind: its reply, its order, and the next memory.
#![tactic(auto)]

ghost use Rattle.unit.specs.Unit.{puts, gets, does, memory_at, outcome_at, Judges};

use names::Kind;
use unit::{Judged, Slate};
use wire::Number;

// A get's answer. The data section is laid out aside, so that its CRC is taken of what is sent: in a buffer of the longest, as there is no heap.
#[tactic(auto, using(names::proofs::Lengths::get_total))]
fn answer_get(
    table: &[u8; table::SIZE],
    slate: Slate,
    name: u32,
    k: usize,
    reply: &mut [u8],
) -> Judged
    ensures { Judges (gets (memory_at table.now slate) name k) reply.old (outcome_at table.now result) reply.new }
{
    let mut section = [0u8; sheet::FRAME];
    table::get(table, k, &mut section);
    let n = names::total_of(k) - 6;
    frame::put(reply, name, &section[..n]);
    slate.quiet()
}

// A set's answer: the CRC first, then the fields; stored whole or not at all. Not by travel's `carried`: its block is asked for by number, and the bytes
// are stored as they came.
#[tactic(auto, unfolding(unit::specs::Unit::puts, unit::specs::Unit::checked))]
fn answer_set(
    table: &mut [u8; table::SIZE],
    slate: Slate,
    k: usize,
    unit: &[u8],
    reply: &mut [u8],
) -> Judged
    ensures { Judges (puts (memory_at table.old slate) k unit.now) reply.old (outcome_at table.new result) reply.new }
{
    let Some(section) = frame::section(unit) else {
        return slate.refuse_crc(reply);
    };
    if let Some(bad) = table::bad_in(k, section) {
        return slate.refuse_field(k, bad, reply);
    }
    unit::echo(unit, reply);
    table::put(table, k, section);
    slate.quiet()
}

// The answer to a whole unit, of the kind that its first bytes say: the caller has looked it up. The table is changed where it stands. A match, which has
// an arm for each kind there is.
#[tactic(auto, using(unit::proofs::Sets::answered_as), unfolding(unit::specs::Unit::does, wire::specs::Numbers::le_bytes))]
pub fn answer(
    table: &mut [u8; table::SIZE],
    slate: Slate,
    kind: Kind,
    unit: &[u8],
    reply: &mut [u8],
) -> Judged
    ensures { Judges (does (memory_at table.old slate) unit.now kind) reply.old (outcome_at table.new result) reply.new }
{
    match kind {
        Kind::Zero => {
            wire::put(reply, 0, 1, 0);
            slate.quiet()
        }
        Kind::Set(k) => answer_set(table, slate, k, unit, reply),
        Kind::Get(k) => answer_get(table, slate, u32::read(unit, 0), k, reply),
        Kind::Gives(order) => {
            unit::echo(unit, reply);
            Judged { order, slate }
        }
        Kind::Moves(k) => travel::moves::answer_move(slate, k, unit, reply),
        Kind::Places => travel::places::answer_spos(slate, unit, reply),
        Kind::Finds => travel::places::answer_gpos(slate, u32::read(unit, 0), reply),
        Kind::Clears => travel::places::answer_zero(slate, unit, reply),
        Kind::Unknown => {
            wire::put(reply, 0, 4, sheet::names::ERRC.number());
            slate.flagged(1).quiet()
        }
    }
}
