//! Paragraphs that don't stand together as an edit of a text state wants it, or are all of their container.
#![tactic(auto)]

mod places;
mod together;
mod whole;

pub use together::not_together;
pub use whole::last_paragraph;
