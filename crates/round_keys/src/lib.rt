//! The keys of paragraphs in a round.
#![tactic(auto)]

mod keys;
mod limits;
mod pages;

pub use keys::{KeyPlace, KeyRound, key_of_par};
