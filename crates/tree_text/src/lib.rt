//! The text of a tree, and that it is read back as that tree.
#![tactic(auto)]

mod laws;

pub use laws::{pieces, reads_back};
