//! Fields that are written are read back. Laws of definitions; the function does nothing.
#![tactic(auto)]

mod laws;

pub use laws::fields_are_read_back;
