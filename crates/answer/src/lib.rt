// What the board can answer, read from the front of a slice (02, P1).
#![tactic(auto)]

ghost use Rattle.std.specs.Prelude.{◌≡◌};
ghost use Rattle.answer.specs.Answer.{refusal_number, read_as, lettered_as, error_answer, lettered_answer, data_answer, first_answer};

use fields::Fields;
use host::{Block, Order};
use sheet::names;
use wire::Number;

#[derive(Clone, Copy)]
pub enum Answer {
    Zero,
    // A set is echoed by its name, an order by its own.
    SetEcho(Block),
    OrderEcho(Order),
    Data(Fields),
    Errc,
    Errd,
    Errv,
}

// An answer and its length.
#[derive(Clone, Copy)]
pub struct Reading {
    pub size: usize,
    pub answer: Answer,
}

// Why no answer is read, by 02's numbers: fewer bytes than a name needs; a name that no answer has; fewer bytes than that answer needs; a
// wrong CRC.
#[derive(Clone, Copy, Debug, PartialEq, Eq)]
pub enum Unread {
    NoName = 5,
    NoAnswer = 6,
    Cut = 7,
    Damaged = 8,
}

// By hand with `as`, since nothing derives it.
impl From<Unread> for u8 {
    ghost from_gives = { λ unread number. number ≡ refusal_number unread };

    fn from(unread: Unread) -> u8 {
        unread as u8
    }
}

// One of the three errors.
#[tactic(auto, unfolding(crate::specs::Answer::error_answer))]
fn error_named(name: u32) -> Option<Answer>
    ensures { lettered_as result ≡ error_answer name }
{
    match name {
        names::ERRC => Some(Answer::Errc),
        names::ERRD => Some(Answer::Errd),
        names::ERRV => Some(Answer::Errv),
        _ => None,
    }
}

// An answer that is four letters: a set's echo before an order's, and that before an error.
#[tactic(auto, unfolding(crate::specs::Answer::lettered_answer, crate::specs::Answer::order_answer))]
fn lettered(name: u32) -> Option<Answer>
    ensures { lettered_as result ≡ lettered_answer name }
{
    Block::set_named(name)
        .map(Answer::SetEcho)
        .or_else(|| Order::named(name).map(Answer::OrderEcho))
        .or_else(|| error_named(name))
}

// A get's answer: its block's data section in a frame.
#[tactic(auto, unfolding(crate::specs::Answer::data_answer))]
fn read_data(block: Block, bytes: &[u8]) -> Result<Reading, Unread>
    ensures { read_as result ≡ data_answer block bytes.now }
{
    let size = block.head().total;
    let sent = bytes.get(..size).ok_or(Unread::Cut)?;
    let section = frame::section(sent).ok_or(Unread::Damaged)?;
    let answer = Answer::Data(Fields::decode(block, section));
    Ok(Reading { size, answer })
}

// One answer from the front, whatever stands behind it.
pub fn read(bytes: &[u8]) -> Result<Reading, Unread>
    ensures { read_as result ≡ first_answer bytes.now }
{
    let [first, ..] = bytes else {
        return Err(Unread::NoName);
    };
    if *first == 0 {
        return Ok(Reading {
            size: 1,
            answer: Answer::Zero,
        });
    }
    if bytes.len() < 4 {
        return Err(Unread::NoName);
    }
    let name = u32::read(bytes, 0);
    match Block::get_named(name) {
        Some(block) => read_data(block, bytes),
        None => lettered(name)
            .map(|answer| Reading { size: 4, answer })
            .ok_or(Unread::NoAnswer),
    }
}
