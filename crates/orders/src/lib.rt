// The orders: their numbers, and what they carry.
#![tactic(auto)]

ghost use Rattle.std.specs.Prelude.{◌≡◌};
ghost use Rattle.orders.specs.Orders.{order_at, order_number, order_travel};

use position::{Microsteps, Steps, Travel};

// With `Nothing` and no Option of an order: sheet 01 names this form, a call's result that holds an order enum.
#[derive(Clone, Copy, PartialEq, Eq)]
pub enum Order {
    Nothing,
    Stop,
    Sstp,
    Pwof,
    Left,
    Rigt,
    Home,
    Loft,
    Move(Travel),
    Movr(Travel),
}

impl Order {
    // The order of a number; 0 and any other number give none, so no TryFrom. A match and no index: an array that is indexed is laid out at every call.
    pub fn at(number: usize) -> Order
        ensures { result ≡ order_at number }
    {
        match number {
            1 => Order::Stop,
            2 => Order::Sstp,
            3 => Order::Pwof,
            4 => Order::Left,
            5 => Order::Rigt,
            6 => Order::Home,
            7 => Order::Loft,
            _ => Order::Nothing,
        }
    }

    // 01's number of an order, 0 for none, as C gets it: a method and no From, as `steps` and `microsteps` are, since C gets all three.
    pub fn number(self) -> u8
        ensures { result ≡ order_number self }
    {
        match self {
            Order::Nothing => 0,
            Order::Stop => 1,
            Order::Sstp => 2,
            Order::Pwof => 3,
            Order::Left => 4,
            Order::Rigt => 5,
            Order::Home => 6,
            Order::Loft => 7,
            Order::Move(_) => 8,
            Order::Movr(_) => 9,
        }
    }

    // What an order carries; most carry none. Not both at once: of such a match the compiler makes a branch, and moves the board once more at each way out.
    pub fn steps(self) -> Steps
        ensures { result ≡ (order_travel self).steps }
    {
        match self {
            Order::Move(travel) | Order::Movr(travel) => travel.steps,
            _ => Steps(0),
        }
    }

    pub fn microsteps(self) -> Microsteps
        ensures { result ≡ (order_travel self).microsteps }
    {
        match self {
            Order::Move(travel) | Order::Movr(travel) => travel.microsteps,
            _ => Microsteps(0),
        }
    }
}
