//! A machine that any number of callers share, whose calls stand in one legal history.
#![tactic(auto)]

mod book;
mod booked;
mod fault;
mod lock;
mod machine;
mod rule;
mod seat;
mod steps;
#[cfg(test)]
mod tests;
mod view;

pub use book::Book;
pub use booked::Booked;
pub use fault::{CallFault, TryFault};
pub use lock::TurnLock;
pub use machine::{Entry, Machine};
pub use rule::{OneTurn, Pass};
pub use seat::Seat;
pub use view::{Known, Stage, Terms, View};
