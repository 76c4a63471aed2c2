//! What is met in the text of a written document. Laws of definitions; the functions do nothing.
#![tactic(auto)]

mod laws;

pub use laws::texts_are_met;
