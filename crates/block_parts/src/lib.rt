//! Parts of blocks as they are read: paragraphs with their places in lists, sections and notes from their attributes, and what is left out in them.
#![tactic(auto)]

mod begins;
mod lists;
mod notes;
mod paragraphs;
mod rules;
mod sections;
mod texts;

pub use begins::{Begins, begin_at};
pub use lists::{Lists, list_left};
pub use notes::{note_attributes_left, note_left, note_with};
pub use paragraphs::{empty_paragraph, heading_left, heading_level, paragraph, paragraph_left};
pub use rules::{Reference, left_beside};
pub use sections::{section, section_left, source, source_left};
pub use texts::{name_from, name_stated, stated_name, style_stated};
