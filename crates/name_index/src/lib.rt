//! The names that stand in a document's body, each with its paragraph: bookmarks, sections, references and notes.
#![tactic(auto)]

mod index;
mod laws;
mod names;

pub use index::NameIndex;
pub use laws::{changes_are_followed, names_are_scanned};
pub use names::{NameKind, Named};

#[cfg(test)]
mod tests;
