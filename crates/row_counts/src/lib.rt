//! How many paragraphs, items and sections the rows of a body have: what its limits count.
#![tactic(auto)]

mod counts;

pub use counts::Counts;
