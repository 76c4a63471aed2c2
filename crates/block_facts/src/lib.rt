//! Blocks, one level deep. The functions do nothing: they carry laws.
#![tactic(auto)]

mod laws;

pub use laws::{paragraphs_are_changed, paragraphs_are_read};
