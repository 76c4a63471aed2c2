//! The items of a paragraph are read back from the pieces that they are written in: a space stands for itself just where it is
//! read as one. Laws of definitions; the function does nothing.
#![tactic(auto)]

mod laws;

pub use laws::spaces_are_read_back;
