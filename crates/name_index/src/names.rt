//! The kinds of names.

use doc_model::{Name, ParId};

/// What a name names. Names of different kinds may be the same.
#[derive(Debug, Clone, Copy, PartialEq, Eq)]
pub enum NameKind {
    /// A bookmark ('text:name' of its marks).
    Bookmark,
    /// A section ('text:name').
    Section,
    /// A sequence field ('text:ref-name').
    Reference,
    /// A note ('text:id').
    Note,
}

/// A name and the paragraph that it leads to: that of a bookmark's first mark in reading order, the first one of a
/// section, that of a sequence field, or that of a note's item.
#[derive(Debug, Drop)]
pub struct Named {
    pub kind: NameKind,
    pub name: Name,
    pub par: ParId,
}
