// The names of 01 and 02: what the first bytes of a unit say that it is, how long it is, and how long its answer.
#![tactic(auto)]

ghost use Rattle.std.specs.Prelude.{◌≡◌};
ghost use Rattle.sheet.specs.Sheet.{set_table, get_table};
ghost use Rattle.names.specs.Names.{total_in, position_kind, kind_of, kind_from, span, replied};

use brk::Brk;
use ctl::Ctl;
use eds::Eds;
use eng::Eng;
use hom::Hom;
use joy::Joy;
use mov::Mov;
use orders::Order;
use pid::Pid;
use position::{Position, Spos, Travel};
use pwr::Pwr;
use sheet::{Block, names};

// A zero, a set or a get, an order, move or movr, spos, gpos, the command zero, or a name that nobody knows.
// Sets, gets and moves hold the sheet's number of their block, and no enum of blocks: the table and travel's `answer_move` promise an answer to any
// number, and a refusal records it.
#[derive(Clone, Copy)]
pub enum Kind {
    Zero,
    Set(usize),
    Get(usize),
    Gives(Order),
    Moves(usize),
    Places,
    Finds,
    Clears,
    Unknown,
}

// The tables of the sheets: each name with the number of its block or of its order, and each block with the total length of its frame.
const SETS: [(u32, usize); 9] = [
    (Mov::SET, 1),
    (Eng::SET, 2),
    (Pwr::SET, 3),
    (Eds::SET, 4),
    (Hom::SET, 5),
    (Brk::SET, 6),
    (Pid::SET, 7),
    (Ctl::SET, 11),
    (Joy::SET, 12),
];

const GETS: [(u32, usize); 9] = [
    (Mov::GET, 1),
    (Eng::GET, 2),
    (Pwr::GET, 3),
    (Eds::GET, 4),
    (Hom::GET, 5),
    (Brk::GET, 6),
    (Pid::GET, 7),
    (Ctl::GET, 11),
    (Joy::GET, 12),
];

// By 01's numbers: `Order::at` says which order has which, so no second table does.
const ORDERS: [(u32, usize); 7] = [
    (names::STOP, 1),
    (names::SSTP, 2),
    (names::PWOF, 3),
    (names::LEFT, 4),
    (names::RIGT, 5),
    (names::HOME, 6),
    (names::LOFT, 7),
];

const TOTALS: [(usize, usize); 9] = [
    (1, Mov::TOTAL),
    (2, Eng::TOTAL),
    (3, Pwr::TOTAL),
    (4, Eds::TOTAL),
    (5, Hom::TOTAL),
    (6, Brk::TOTAL),
    (7, Pid::TOTAL),
    (11, Ctl::TOTAL),
    (12, Joy::TOTAL),
];

// The total length of the set of this number, and of the answer to the get; a number of none has name and CRC only.
#[tactic(auto, using(crate::proofs::Looked::total_looked))]
pub fn total_of(number: usize) -> usize
    ensures set { result ≡ total_in set_table number }
    ensures get { result ≡ total_in get_table number }
{
    keyed::value_of(number, &TOTALS).unwrap_or(6)
}

impl Kind {
    // What a name says that its unit is, where it is no set, no get and no named order.
    #[tactic(auto, unfolding(crate::specs::Names::position_kind))]
    fn of_position(name: u32) -> Kind
        ensures { result ≡ position_kind name }
    {
        match name {
            Travel::MOVE => Kind::Moves(8),
            Travel::MOVR => Kind::Moves(9),
            Spos::SET => Kind::Places,
            Position::GET => Kind::Finds,
            names::ZERO => Kind::Clears,
            _ => Kind::Unknown,
        }
    }

    // What a name says that its unit is.
    #[tactic(auto, using(crate::proofs::Looked::kind_looked))]
    fn named(name: u32) -> Kind
        ensures { result ≡ kind_of name }
    {
        if let Some(set) = keyed::value_of(name, &SETS) {
            Kind::Set(set)
        } else if let Some(get) = keyed::value_of(name, &GETS) {
            Kind::Get(get)
        } else if let Some(order) = keyed::value_of(name, &ORDERS) {
            Kind::Gives(Order::at(order))
        } else {
            Kind::of_position(name)
        }
    }

    // What a unit is that begins with this byte, and this name from that byte on.
    #[tactic(auto, unfolding(crate::specs::Names::kind_from))]
    pub fn of(first: u8, name: u32) -> Kind
        ensures { result ≡ kind_from first name }
    {
        if first == 0 {
            Kind::Zero
        } else {
            Kind::named(name)
        }
    }

    // The length of a unit of this kind: a zero is by itself, a set has its block's total, any other is its name.
    pub fn span(self) -> usize
        ensures { result ≡ span self }
    {
        match self {
            Kind::Zero => 1,
            Kind::Set(k) => total_of(k),
            Kind::Moves(_) => Travel::TOTAL,
            Kind::Places => Spos::TOTAL,
            _ => 4,
        }
    }

    // The length of the answer to a unit of this kind: a zero byte, a get's frame, or four letters.
    pub fn replied(self) -> usize
        ensures { result ≡ replied self }
    {
        match self {
            Kind::Zero => 1,
            Kind::Get(k) => total_of(k),
            Kind::Finds => Position::TOTAL,
            _ => 4,
        }
    }
}
