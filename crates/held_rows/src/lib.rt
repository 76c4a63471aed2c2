//! What a container holds from a paragraph on, on rows.
#![tactic(auto)]

mod laws;

pub use laws::{held_rows_are_closed, held_rows_come_first, wrapped_rows};
