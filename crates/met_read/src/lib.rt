//! What is met in a text that has a name of its own, and which of it is kept.
#![tactic(auto)]

mod things;
mod walk;

pub use things::{MarkKind, Met, MetMark, MetName, MetSection};
pub use walk::met_in;
