// The lines of the bench, and an order as they show it. A byte past the end of a buffer is not written.
// Buffer and place are apart, as in text. A usize is handed on `as u64`: u64 has no From of it, and a TryFrom would only be unwrapped.
#![tactic(auto)]

ghost use Rattle.text.specs.Texts.{Written};
ghost use Rattle.lines.specs.Lines.{travel_shown, order_shown, line_of, bad_of, end_of};

use orders::Order;
use position::Travel;

fn write_travel(out: &mut [u8], at: usize, travel: Travel) -> usize
    ensures { Written out.old at (travel_shown travel) result out.new }
{
    let a = text::write_byte(out, at, b':');
    let b = text::write_signed(out, a, i64::from(travel.steps.0));
    let c = text::write_byte(out, b, b':');
    text::write_signed(out, c, i64::from(travel.microsteps.0))
}

// An order's number, and the steps and microsteps of one that carries them.
pub fn write_order(out: &mut [u8], at: usize, order: Order) -> usize
    ensures { Written out.old at (order_shown order) result out.new }
{
    let last = text::write_decimal(out, at, u64::from(order.number()));
    if let Order::Move(travel) | Order::Movr(travel) = order {
        return write_travel(out, last, travel);
    }
    last
}

// ---- the lines, at the front of a buffer; the answer is how many of its bytes they are

pub fn write_line(out: &mut [u8], stamp: u32, taken: usize, order: Order, reply: &[u8]) -> usize
    ensures { Written out.old 0 (line_of stamp taken order reply.now) result out.new }
{
    let a = text::write_number(out, 0, u64::from(stamp), b' ');
    let b = text::write_number(out, a, taken as u64, b' ');
    let c = write_order(out, b, order);
    let d = text::write_byte(out, c, b' ');
    let e = text::write_reply(out, d, reply);
    text::write_byte(out, e, b'\n')
}

pub fn write_bad(out: &mut [u8], place: usize) -> usize
    ensures { Written out.old 0 (bad_of place) result out.new }
{
    let a = text::write_text(out, 0, b"bad ");
    text::write_number(out, a, place as u64, b'\n')
}

pub fn write_end(out: &mut [u8], flags: usize, unfinished: usize) -> usize
    ensures { Written out.old 0 (end_of flags unfinished) result out.new }
{
    let a = text::write_text(out, 0, b"flags ");
    let b = text::write_decimal(out, a, flags as u64);
    let c = text::write_text(out, b, b" unfinished ");
    text::write_number(out, c, unfinished as u64, b'\n')
}
