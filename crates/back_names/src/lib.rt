//! The names of a document that was written, as they are read: its root declares the namespaces, and nothing in it declares
//! any. Laws of definitions; the functions do nothing.
#![tactic(auto)]

mod laws;

pub use laws::names_are_read_back;
