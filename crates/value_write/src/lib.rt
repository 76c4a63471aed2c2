//! Attributes as they are written, each by what it says: texts, numbers and words.
#![tactic(auto)]

mod attributes;
mod words;

pub use attributes::{push_number, push_text, push_unless_empty, push_whole};
pub use words::{
    chapter_text, class_text, format_text, reference_text, select_text, sequence_text, truth,
};
