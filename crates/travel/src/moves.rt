// move and movr (02, P5): read and checked as sets are; they store nothing and give an order.
ghost use Rattle.std.specs.Prelude.{◌≡◌};
ghost use Rattle.unit.specs.Unit.{move_order, moves, JudgesAny};

use crate::carried;
use orders::Order;
use position::Travel;
use unit::{Judged, Slate};

// The order of block 8, and of block 9: by number, since `answer_move` promises an answer to any.
fn order_of(block: usize, travel: Travel) -> Order
    ensures { result ≡ move_order block travel }
{
    if block == 8 {
        Order::Move(travel)
    } else {
        Order::Movr(travel)
    }
}

#[tactic(auto, unfolding(unit::specs::Unit::moves, unit::specs::Unit::checked))]
pub fn answer_move(slate: Slate, block: usize, unit: &[u8], reply: &mut [u8]) -> Judged
    ensures { JudgesAny (λ m. moves m block unit.now) slate reply.old result reply.new }
{
    match carried(slate, block, unit, reply) {
        Ok(travel) => {
            unit::echo(unit, reply);
            Judged {
                order: order_of(block, travel),
                slate,
            }
        }
        Err(refused) => refused,
    }
}
