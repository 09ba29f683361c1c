// What a unit meets and leaves: the memory, and the answers that units of several kinds share. What a unit of each kind does, crates travel and act say.
#![tactic(auto)]

ghost use Rattle.std.specs.Prelude.{◌≡◌};
ghost use Rattle.std.proofs.lemmas.List.Edits.{sets};
ghost use Rattle.wire.specs.Numbers.{le_bytes};
ghost use Rattle.names.specs.Names.{name_of};
ghost use Rattle.orders.specs.declared.Order.TheVariants.{Nothing};
ghost use Rattle.unit.specs.Unit.{damaged, out_of_range, flag_slate, JudgesAny};

use orders::Order;
use position::Position;
use table::Table;
use wire::Number;

// The flags, by the sheet's bits, and the last refused block and field, 0 where there is none: numbers, as C has them. All are words, so that a copy has
// no gap to move.
#[repr(C)]
#[derive(Clone, Copy, PartialEq, Eq, Default)]
pub struct Notes {
    pub flags: usize,
    pub block: usize,
    pub field: usize,
}

// What a board remembers of the units that have ended, and where the drive stands.
#[repr(C)]
#[derive(Clone, Copy)]
pub struct Memory {
    pub settings: Table,
    pub notes: Notes,
    pub position: Position,
}

// The memory but for its table, which is lent: nothing of it is moved while units are answered.
// Here and in act and travel slate, unit and reply are passed on apart: a struct of them would hold a `&mut`, and every clause would speak of its entry
// and its exit.
#[derive(Clone, Copy)]
pub struct Slate {
    pub notes: Notes,
    pub position: Position,
}

#[derive(Clone, Copy)]
pub struct Judged {
    pub order: Order,
    pub slate: Slate,
}

impl Slate {
    // No order, and this slate.
    pub fn quiet(self) -> Judged
        ensures { result ≡ record { order = Nothing; slate = self } }
    {
        Judged {
            order: Order::Nothing,
            slate: self,
        }
    }

    // With a flag set.
    pub fn flagged(self, bit: usize) -> Slate
        ensures { result ≡ flag_slate bit self }
    {
        let notes = Notes {
            flags: self.notes.flags | bit,
            ..self.notes
        };
        Slate { notes, ..self }
    }

    // The refusals of a set: a wrong CRC, and a field out of its range.
    pub fn refuse_crc(self, reply: &mut [u8]) -> Judged
        ensures { JudgesAny damaged self reply.old result reply.new }
    {
        wire::put(reply, 0, 4, sheet::names::ERRD.number());
        self.flagged(2).quiet()
    }

    pub fn refuse_field(self, block: usize, field: usize, reply: &mut [u8]) -> Judged
        ensures { JudgesAny (λ m. out_of_range m block field) self reply.old result reply.new }
    {
        wire::put(reply, 0, 4, sheet::names::ERRV.number());
        let notes = Notes {
            block,
            field,
            ..self.flagged(4).notes
        };
        Slate { notes, ..self }.quiet()
    }
}

// The name of the unit as its reply.
pub fn echo(unit: &[u8], reply: &mut [u8])
    ensures { reply.new ≡ sets reply.old 0 (le_bytes 4 (name_of unit.now)) }
{
    wire::put(reply, 0, 4, u32::read(unit, 0).number())
}
