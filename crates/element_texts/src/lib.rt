//! The text of elements.
#![tactic(auto)]

mod texts;

pub use texts::own_text;
