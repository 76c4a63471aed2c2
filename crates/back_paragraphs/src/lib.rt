//! Paragraphs and notes are read back, each paragraph alone in its list where it has a place in one. Laws of definitions; the
//! functions do nothing.
#![tactic(auto)]

mod laws;

pub use laws::{notes_are_read_back, paragraphs_are_read_back};
