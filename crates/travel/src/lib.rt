// What 02's P5 adds to the units: move and movr, which send the drive; spos, gpos and zero, which set, send and clear where it stands.
// move and spos share a set's two checks: `carried`.
#![tactic(auto)]

ghost use Rattle.std.specs.Prelude.{◌≡◌, true, MatchResult};
ghost use Rattle.frame.specs.Frame.{data_in, intact};
ghost use Rattle.sheet.specs.Rows.{numbers_in, first_bad};
ghost use Rattle.rule.specs.Rule.{Said};
ghost use Rattle.orders.specs.declared.Order.{Order};
ghost use Rattle.unit.specs.declared.Memory.{Memory};
ghost use Rattle.unit.specs.Unit.{checked, JudgesAny};

use sheet::Section;
use unit::{Judged, Slate};

pub mod moves;
pub mod places;

// What a set carries, where its CRC and its fields are good; the reply is untouched then. Else its refusal, whatever it would have done.
fn carried<S: Section>(
    slate: Slate,
    block: usize,
    unit: &[u8],
    reply: &mut [u8],
) -> Result<S, Judged>
    ensures { let read = S.of (numbers_in S.sheet_row (data_in unit.now)) in
        let bad = first_bad S.sheet_row (S.to read) in
        MatchResult result
        (λ s. (intact unit.now ≡ true) × (s ≡ read) × (bad ≡ 0) × (reply.new ≡ reply.old))
        (λ d. (done : Said Order Memory) → JudgesAny (λ m. checked m unit.now block bad done) slate reply.old d reply.new) }
{
    let Some(section) = frame::section(unit) else {
        return Err(slate.refuse_crc(reply));
    };
    let read = S::decode(section);
    if let Some(bad) = read.first_bad() {
        return Err(slate.refuse_field(block, bad, reply));
    }
    Ok(read)
}
