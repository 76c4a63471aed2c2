//! The rounds in which a document is laid out, and the idle work that goes through them, stop by stop.
#![tactic(auto)]

mod turn;

pub use turn::{Published, Taken};
