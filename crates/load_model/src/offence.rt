//! Why a file isn't read as a document.

use doc_model::Limit;

/// Why a tree isn't read. At one place the first of these in their order is named.
#[derive(Debug, Clone, Copy, PartialEq, Eq)]
pub enum TreeOffenceKind {
    /// An element or attribute has an undeclared prefix, or two attributes of an element have one expanded name.
    Names,
    /// The root isn't 'office:document'.
    Root,
    /// 'office:mimetype' isn't that of a text or of a master document.
    Mime,
    /// There is no 'office:body' with an 'office:text', or a second one of either.
    NoText,
    /// A style is its own ancestor.
    StyleLoop,
    /// A limit is passed.
    Limit(Limit),
    /// A table stands where a block is read.
    Table,
}

/// The first offence of a tree.
#[derive(Debug, Clone, Copy, PartialEq, Eq)]
pub struct TreeOffence {
    /// What it is.
    pub kind: TreeOffenceKind,
    /// The place of the element's `<`, in bytes from 0.
    pub place: u32,
}
