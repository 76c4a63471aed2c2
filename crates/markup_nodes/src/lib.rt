//! The tree of a document's elements.
//!
//! The characters of an element stand in runs, one before its first child and one behind each, so that a character takes
//! its bytes; contracts see one list of elements and characters.
#![tactic(auto)]

mod nodes;
mod tree;
mod words;

pub use nodes::{Nodes, Turn};
pub use tree::{Elem, Tree};
pub use words::{Attr, Attrs, Word};
