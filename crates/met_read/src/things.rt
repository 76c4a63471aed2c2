//! What is met in a text.

/// What a mark is: a whole bookmark, or one end of it.
#[derive(Debug, Clone, Copy, PartialEq, Eq)]
pub enum MarkKind {
    Whole,
    Start,
    End,
}

/// A thing that is met: the place of its element and a name.
#[derive(Debug, Clone, Copy)]
pub struct MetName<'a> {
    pub place: u32,
    pub name: &'a str,
}

/// A mark.
#[derive(Debug, Clone, Copy)]
pub struct MetMark<'a> {
    /// The place of its element.
    pub place: u32,
    /// The text that it stands in: the place of its note, or 0 for the body.
    pub text: u32,
    /// What it is.
    pub kind: MarkKind,
    /// The name of its bookmark.
    pub name: &'a str,
}

/// A section with a name, where sections are read.
#[derive(Debug, Clone, Copy)]
pub struct MetSection<'a> {
    /// The place of its element.
    pub place: u32,
    /// Its name.
    pub name: &'a str,
    /// The place of the innermost of those around it.
    pub within: Option<u32>,
}

/// What is met.
#[derive(Debug, Clone, Copy)]
pub enum Met<'a> {
    Section(MetSection<'a>),
    Mark(MetMark<'a>),
    /// A note with its id.
    Note(MetName<'a>),
    /// A sequence field with its reference name.
    Reference(MetName<'a>),
    /// A sequence field with the sequence that it counts.
    Sequence(MetName<'a>),
    /// A field that sets or shows a variable.
    Variable(MetName<'a>),
    /// A table where blocks are read, by its place.
    Table(u32),
}
