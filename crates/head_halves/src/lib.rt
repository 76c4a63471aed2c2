//! The head of the new paragraph behind one that is split.
#![tactic(auto)]

mod halves;

pub use halves::second_head;
