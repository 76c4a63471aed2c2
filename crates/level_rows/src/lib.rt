//! What containers hold, told from rows.
#![tactic(auto)]

mod laws;

pub use laws::{held_is_told, togetherness_is_told};
