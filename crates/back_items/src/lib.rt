//! The content of a paragraph is read back. Laws of definitions; the function does nothing.
#![tactic(auto)]

mod laws;

pub use laws::content_is_read_back;
