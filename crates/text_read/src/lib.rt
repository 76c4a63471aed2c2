//! The text of a file, read as blocks.
#![tactic(auto)]

mod steps;
mod walk;

pub use walk::read_text;
