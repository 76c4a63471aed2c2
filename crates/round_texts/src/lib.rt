//! The paragraphs of a document, each of the body with its notes, as rounds go through them.
#![tactic(auto)]

mod bodies;
mod left;
mod notes;

pub use bodies::{BodyText, body_texts};
pub use notes::NoteText;
