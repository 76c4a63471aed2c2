//! Sections with their sources are read back, and with the declarations in front of them the whole text. Laws of definitions; the
//! functions do nothing.
#![tactic(auto)]

mod laws;

pub use laws::{blocks_are_read_back, numbers_are_not_written, text_is_read_back};
