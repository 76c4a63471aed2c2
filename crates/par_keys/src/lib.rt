//! The texts and the keys of paragraphs.
#![tactic(auto)]

mod keys;

pub use keys::{key_of, text_of};
