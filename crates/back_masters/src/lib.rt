//! Masters with their headers and footers are read back. Laws of definitions; the function does nothing.
#![tactic(auto)]

mod laws;

pub use laws::masters_are_read_back;
