//! Markup: the bytes of an XML document to a tree of elements, or the first offence; and the escapes for writing.
//!
//! It serves documents alone and is no general XML library: a document type is an offence, and names are not taken apart.
#![tactic(auto)]

mod construct;
mod escape;
mod laws;
mod part;
mod reader;

pub use escape::{escape_text, escape_value, push_text, push_value};
pub use laws::one_tree;
pub use markup_nodes::{Attr, Attrs, Elem, Nodes, Tree, Turn, Word};
pub use reader::{Offence, OffenceKind, ReadFault, read_tree};

#[cfg(test)]
mod tests;
