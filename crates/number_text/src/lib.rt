//! Numbers in the formats of a document, and texts that keep their first 512 characters.
#![tactic(auto)]

mod cut;
mod numbers;

pub use cut::CutText;
pub use numbers::push_number;

#[cfg(test)]
mod tests;
