//! The idle work of a desk: which lines are wanted, which are kept, and how much is left to do.
#![tactic(auto)]

mod agenda;
mod kept;
mod places;
mod stop;
mod touched;

pub use agenda::Agenda;
