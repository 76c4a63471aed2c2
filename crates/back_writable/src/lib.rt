//! The tree that a document is written as may be written. Laws of definitions; the functions do nothing.
#![tactic(auto)]

mod laws;

pub use laws::documents_are_writable;
