//! What the index of names tells of the names that edits need and bring.
#![tactic(auto)]

mod laws;

pub use laws::names_are_there;
