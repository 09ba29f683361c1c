// A line: unit after unit is taken off its front. Table, held and reply are passed on apart, as receiver has them.
#![tactic(auto)]

ghost use Rattle.std.specs.Prelude.{[], List, ◌≡◌, ℕ, ◌≤◌, length};
ghost use Rattle.rule.specs.Calls.{accept};
ghost use Rattle.rule.specs.Rule.{state_at};
ghost use Rattle.sheet.specs.Lengths.{longest_frame};
ghost use Rattle.unit.specs.Unit.{memory_at};
ghost use Rattle.unit.specs.Protocol.{protocol};
ghost use Rattle.state.specs.Call.{call_at};
ghost use Rattle.state.specs.Returned.{Returned};
ghost use Rattle.line.specs.Line.{ran, holding};

use names::Kind;
use orders::Order;
use state::{Done, Rest};
use unit::Slate;
use wire::Number;

// The answer once the units of a line have been taken: what is left of it is held, and zeros behind it.
fn over(
    held: &mut [u8; sheet::FRAME],
    slate: Slate,
    order: Order,
    stamp: u32,
    left: &[u8],
    taken: usize,
    written: usize,
) -> Done<Rest>
    requires { length left.now ≤ longest_frame }
    ensures { (table : List ℕ) → call_at table held.new result ≡ holding (memory_at table slate) order stamp left.now taken written }
{
    let count = left.len();
    wire::copy(held, 0, left);
    held[count..].fill(0);
    let rest = Rest {
        notes: slate.notes,
        position: slate.position,
        count,
        stamp,
    };
    Done {
        board: rest,
        taken,
        written,
        order,
    }
}

// Unit after unit from the front of a line, where it stands, until no whole unit is left, an order is given, or a reply does not fit. What
// is left is held, but for the byte whose reply does not fit and what is behind it. No iterator takes parts whose length each tells itself, and
// the places i and w are what the answer says.
pub fn take_units(
    table: &mut [u8; table::SIZE],
    held: &mut [u8; sheet::FRAME],
    slate: Slate,
    line: &[u8],
    stamp: u32,
    reply: &mut [u8],
) -> Done<Rest>
    ensures { Returned ran (accept protocol (state_at (memory_at table.old slate) [] stamp) stamp (length reply.old) line.now) reply.old (call_at table.new held.new result) reply.new }
{
    let mut cur = slate;
    let mut i = 0;
    let mut w = 0;
    while i < line.len() {
        let kind = Kind::of(line[i], u32::read(line, i));
        let n = kind.span();
        if line.len() - i < n {
            return over(held, cur, Order::Nothing, stamp, &line[i..], line.len(), w);
        }
        let due = kind.replied();
        let e = i + n;
        if reply.len() - w < due {
            return over(held, cur, Order::Nothing, stamp, &line[i..e - 1], e - 1, w);
        }
        let judged = act::answer(table, cur, kind, &line[i..e], &mut reply[w..]);
        cur = judged.slate;
        i = e;
        w += due;
        if judged.order != Order::Nothing {
            return over(held, cur, judged.order, stamp, &[], i, w);
        }
    }
    over(held, cur, Order::Nothing, stamp, &[], i, w)
}
