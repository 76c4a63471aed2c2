//! What is valid in a document that is read, part by part of its text. Laws of definitions; the functions do nothing.
#![tactic(auto)]

mod laws;

pub use laws::{loaded_texts_are_good, loaded_texts_are_valid};
