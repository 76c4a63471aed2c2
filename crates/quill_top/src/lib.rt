//! The program as one call over a shelf and two sinks: what its words ask for, what it puts, and how
//! it ends.
#![tactic(auto)]

mod ending;
mod lone;
mod steps;
mod tasks;
mod words;

pub use lone::{Status, quill_lone};
