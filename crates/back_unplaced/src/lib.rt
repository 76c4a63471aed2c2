//! The tree that a document is written as has no places. Laws of definitions; the functions do nothing.
#![tactic(auto)]

mod laws;

pub use laws::written_trees_have_no_places;
