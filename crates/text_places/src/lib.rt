//! What the places of elements say of the declarations and paragraphs of a text. Laws of definitions; the functions do nothing.
#![tactic(auto)]

mod laws;

pub use laws::{declarations_rise, paragraphs_are_apart};
