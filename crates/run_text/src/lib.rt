//! A list that is edited near one place, as the text under a cursor is.
#![tactic(auto)]

mod gap;
mod run_text;
#[cfg(test)]
mod tests;

pub use run_text::RunText;
