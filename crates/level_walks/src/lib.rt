//! What stands round paragraphs in their containers, found by the rows between them.
#![tactic(auto)]

mod notes;
mod order;
mod walks;

pub use notes::is_in_note;
pub use order::{are_in_order, are_paragraphs_in_order, is_followed, is_last_held};
