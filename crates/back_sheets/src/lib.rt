//! Page layouts are read back. Laws of definitions; the functions do nothing.
#![tactic(auto)]

mod laws;

pub use laws::layouts_are_read_back;
