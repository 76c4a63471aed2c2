//! What the rows of a document tell of it: its paragraphs, its sections, and the sections round each.
#![tactic(auto)]

mod laws;

pub use laws::{containers_are_open, paragraphs_are_rows, sections_are_rows};
