//! Lengths as they are written, attributes that are written where they are stated, and the properties of styles.
#![tactic(auto)]

mod lengths;
mod numbers;
mod properties;
mod stated;
mod words;

pub use lengths::push_length;
pub use properties::{push_paragraph_attributes, push_text_attributes};
pub use stated::push_length_stated;

#[cfg(test)]
mod tests;
