//! What is read where blocks are, step by step.
#![tactic(auto)]

mod begins;
mod declarations;
mod laws;
mod read;
mod sections;

pub use laws::kept_as_changed;
pub use read::{Declared, ReadBlocks, ReadDeclarations, ReadSource};
pub use sections::{or_empty, paragraphs_in};
