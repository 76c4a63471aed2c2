//! The numbers of a document that was read: its paragraphs are numbered from 1 in reading order, and list places have at most ten levels. Blocks and items are moved, and nothing is copied.
#![tactic(auto)]

mod blocks;
mod paragraphs;

pub use blocks::number_paragraphs;
