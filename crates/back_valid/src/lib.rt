//! The text of a valid document can be read back: paragraphs with their notes, sections and declared names. Laws of definitions; the
//! functions do nothing.
#![tactic(auto)]

mod laws;

pub use laws::{declared_names_are_names, paragraphs_are_readable, sections_are_readable};
