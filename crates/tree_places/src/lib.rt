//! The places of the elements of a file, which come in its order. Laws of definitions; the functions do nothing.
#![tactic(auto)]

mod laws;

pub use laws::{bad_names_rise, resolved_trees_are_in_order, spelled_trees_are_in_order};
