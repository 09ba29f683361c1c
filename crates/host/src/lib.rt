// The optimiser's end of the link (02, P1) knows the names of 01 alone: a command that joins the board later is no request here and no answer.
#![tactic(auto)]

ghost use Rattle.std.specs.Prelude.{◌≡◌};
ghost use Rattle.sheet.specs.Rows.{head_of};
ghost use Rattle.host.specs.Names.{set_of, get_of, order_name, block_number, order_number, block_at, order_at, set_named, get_named, order_named};

use brk::Brk;
use eds::Eds;
use eng::Eng;
use hom::Hom;
use mov::Mov;
use pid::Pid;
use pwr::Pwr;
use sheet::{Block as _, Head, names};

// The longest frame of these, set or answer; a board's later commands may have longer ones.
pub const FRAME: usize = 48;

// 01's blocks, by their numbers.
#[derive(Clone, Copy, Debug, PartialEq, Eq)]
pub enum Block {
    Mov = 1,
    Eng = 2,
    Pwr = 3,
    Eds = 4,
    Hom = 5,
    Brk = 6,
    Pid = 7,
}

// 01's orders, by their numbers.
#[derive(Clone, Copy, Debug, PartialEq, Eq)]
pub enum Order {
    Stop = 1,
    Sstp = 2,
    Pwof = 3,
    Left = 4,
    Rigt = 5,
    Home = 6,
    Loft = 7,
}

// The names of 01, each with its block or order.
const SETS: [(u32, Block); 7] = [
    (Mov::SET, Block::Mov),
    (Eng::SET, Block::Eng),
    (Pwr::SET, Block::Pwr),
    (Eds::SET, Block::Eds),
    (Hom::SET, Block::Hom),
    (Brk::SET, Block::Brk),
    (Pid::SET, Block::Pid),
];

const GETS: [(u32, Block); 7] = [
    (Mov::GET, Block::Mov),
    (Eng::GET, Block::Eng),
    (Pwr::GET, Block::Pwr),
    (Eds::GET, Block::Eds),
    (Hom::GET, Block::Hom),
    (Brk::GET, Block::Brk),
    (Pid::GET, Block::Pid),
];

const ORDERS: [(u32, Order); 7] = [
    (names::STOP, Order::Stop),
    (names::SSTP, Order::Sstp),
    (names::PWOF, Order::Pwof),
    (names::LEFT, Order::Left),
    (names::RIGT, Order::Rigt),
    (names::HOME, Order::Home),
    (names::LOFT, Order::Loft),
];

// Blocks and orders are looked up alike, each in its own table: one function for both would be told which, by each caller.
impl Block {
    // The block that has this number. No TryFrom: its error would say no more than None.
    pub fn at(number: usize) -> Option<Block>
        ensures { result ≡ block_at number }
    {
        match number {
            1 => Some(Block::Mov),
            2 => Some(Block::Eng),
            3 => Some(Block::Pwr),
            4 => Some(Block::Eds),
            5 => Some(Block::Hom),
            6 => Some(Block::Brk),
            7 => Some(Block::Pid),
            _ => None, // no block's number
        }
    }

    // The block that has this set name, and the block that has this get name.
    pub fn set_named(name: u32) -> Option<Block>
        ensures { result ≡ block_at (set_named name) }
    {
        keyed::value_of(name, &SETS)
    }

    pub fn get_named(name: u32) -> Option<Block>
        ensures { result ≡ block_at (get_named name) }
    {
        keyed::value_of(name, &GETS)
    }

    // Its total length and names.
    pub fn head(self) -> Head
        ensures { result ≡ head_of (set_of self) (get_of self) }
    {
        match self {
            Block::Mov => Mov::head(),
            Block::Eng => Eng::head(),
            Block::Pwr => Pwr::head(),
            Block::Eds => Eds::head(),
            Block::Hom => Hom::head(),
            Block::Brk => Brk::head(),
            Block::Pid => Pid::head(),
        }
    }
}

// By hand with `as`, since nothing derives it.
impl From<Block> for u8 {
    ghost from_gives = { λ block number. number ≡ block_number block };

    fn from(block: Block) -> u8 {
        block as u8
    }
}

impl Order {
    // The order that has this number. No TryFrom, as for Block.
    pub fn at(number: usize) -> Option<Order>
        ensures { result ≡ order_at number }
    {
        match number {
            1 => Some(Order::Stop),
            2 => Some(Order::Sstp),
            3 => Some(Order::Pwof),
            4 => Some(Order::Left),
            5 => Some(Order::Rigt),
            6 => Some(Order::Home),
            7 => Some(Order::Loft),
            _ => None, // no order's number
        }
    }

    // The order that has this name.
    #[tactic(auto, using(crate::proofs::Numbered::orders_by))]
    pub fn named(name: u32) -> Option<Order>
        ensures { result ≡ order_at (order_named name) }
    {
        keyed::value_of(name, &ORDERS)
    }

    pub fn name(self) -> u32
        ensures { result ≡ order_name self }
    {
        match self {
            Order::Stop => names::STOP,
            Order::Sstp => names::SSTP,
            Order::Pwof => names::PWOF,
            Order::Left => names::LEFT,
            Order::Rigt => names::RIGT,
            Order::Home => names::HOME,
            Order::Loft => names::LOFT,
        }
    }
}

// By hand with `as`, as Block's.
impl From<Order> for u8 {
    ghost from_gives = { λ order number. number ≡ order_number order };

    fn from(order: Order) -> u8 {
        order as u8
    }
}
