//! White space in the content of paragraphs: of a run of spaces one stays, and those at both ends go.
#![tactic(auto)]

mod last;
mod letters;
mod spacing;

pub use letters::is_white;
pub use spacing::SpacedItems;
