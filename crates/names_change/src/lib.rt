//! What edits do to the names of a document.
#![tactic(auto)]

mod laws;

pub use laws::{joined_names_follow, split_names_follow};
