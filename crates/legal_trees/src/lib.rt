//! The characters of a file's elements are legal. Laws of definitions; the functions do nothing.
#![tactic(auto)]

mod laws;

pub use laws::{parts_are_legal, spelled_trees_are_legal};
