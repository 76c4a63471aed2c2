//! What edits of items do to the names of a document.
#![tactic(auto)]

mod laws;

pub use laws::{new_names_are_added, removed_names_are_dropped};
