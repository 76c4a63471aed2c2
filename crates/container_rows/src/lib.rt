//! What edits of containers come to on rows: of the body, of sections and of notes.
#![tactic(auto)]

mod laws;

pub use laws::{joined_rows, other_rows_stay, split_rows};
