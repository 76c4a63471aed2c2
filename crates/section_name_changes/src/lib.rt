//! What edits of sections do to the names of a document.
#![tactic(auto)]

mod laws;

pub use laws::{set_names_stay, unwrapped_names_follow, wrapped_names_follow};
