//! The texts of fields and the citations of notes, one paragraph at a time.
#![tactic(auto)]

mod chapters;
mod forget;
mod groups;
mod pages;
mod quotes;
mod read;
mod refs;
mod runs;
mod show;
mod spots;
mod texts;
mod walk;

pub use field_model::{Gathered, Shown};
pub use walk::Walk;

#[cfg(test)]
mod tests;
