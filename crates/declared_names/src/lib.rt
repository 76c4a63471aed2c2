//! The names that a text declares: the first declaration of each name, and then the names that are used without one.
#![tactic(auto)]

mod left;
mod merge;
mod names;
mod stated;
mod used;

pub use left::declared_left;
pub use merge::declaration_beyond;
pub use names::{DeclaredNames, declared_names};
pub use stated::Stated;
