//! Cuts the text of a key into its lines.
#![tactic(auto)]

mod line;
mod lines;

pub use lines::form;
