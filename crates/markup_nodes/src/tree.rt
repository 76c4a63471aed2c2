//! The tree of a document's elements.

use crate::nodes::Nodes;
use crate::words::{Attrs, Word};

/// An element.
#[derive(Debug, Drop)]
pub struct Elem {
    /// The place of the `<` of its tag, in bytes from 0.
    pub place: u32,
    /// The name as it stands, with its prefix.
    pub name: Word,
    /// The attributes in their order.
    pub attrs: Attrs,
    /// What it holds, in its order.
    pub nodes: Nodes<Elem>,
}

/// The tree of a document. Comments, instructions and what stands outside the root are not in it.
#[derive(Debug, Drop)]
pub struct Tree {
    /// The root element.
    pub root: Elem,
}
