//! The text of a document as it is written: its declarations and its blocks.
//!
//! After an error a beginning of what was asked for may stand at the end of the string.
#![tactic(auto)]

mod text;

pub use text::push_text_element;
