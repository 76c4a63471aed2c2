//! Which of what is met in a text is kept, by names.
#![tactic(auto)]

mod bookmarks;
mod firsts;
mod kept;
mod places;

pub use kept::{Kept, kept_of};
pub use places::Places;
