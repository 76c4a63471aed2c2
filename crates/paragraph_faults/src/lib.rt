//! Which paragraphs are beyond a limit: by how many they are, and by how many items they have.
#![tactic(auto)]

mod counted;
mod limits;

pub use counted::{Counted, counted_paragraphs};
pub use limits::{first_too_many, paragraph_beyond, too_long};
