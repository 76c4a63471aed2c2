//! Paragraphs in their lists, and notes, as they are written.
//!
//! What stands before and behind the content of a paragraph, and before and behind the paragraphs of a note, has calls of its
//! own, for who has these parts in rows. After an error a beginning of what was asked for may stand at the end of the string.
#![tactic(auto)]

mod around;
mod body;
mod lists;
mod notes;
mod paragraphs;

pub use around::{push_close, push_tag_close};
pub use body::push_paragraph;
pub use notes::{push_note, push_note_end, push_note_start};
pub use paragraphs::{push_note_paragraph, push_paragraph_end, push_paragraph_start};
