//! The text of a written document is read back, wherever its elements stand. Laws of definitions; the function does nothing.
#![tactic(auto)]

mod laws;

pub use laws::texts_are_read_back;
