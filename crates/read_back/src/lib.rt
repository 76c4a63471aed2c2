//! What is written is read back: the bytes of a valid document spell a tree that has no offence and is loaded as a document alike to it,
//! with nothing left out. A law of definitions; the function does nothing.
#![tactic(auto)]

mod laws;

pub use laws::documents_are_read_back;
