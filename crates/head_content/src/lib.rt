//! The paragraphs of headers and footers, as they are read.
#![tactic(auto)]

mod head_items;
mod leaves;
mod paragraph;
mod parts;
mod walk;

pub use paragraph::{ReadHead, read_head_paragraph};
