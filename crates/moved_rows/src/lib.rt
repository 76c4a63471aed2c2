//! What moves of paragraphs come to on rows.
#![tactic(auto)]

mod laws;

pub use laws::moved_rows;
