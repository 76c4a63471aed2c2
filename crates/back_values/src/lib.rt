//! Values that are written are read back. Laws of definitions; the functions do nothing.
#![tactic(auto)]

mod laws;

pub use laws::{names_are_read_back, numbers_are_read_back, words_are_read_back};
