//! Protected sections round the paragraphs that an edit of a text state names.
#![tactic(auto)]

mod order;
mod protection;

pub use protection::protected;
