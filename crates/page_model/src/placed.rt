//! Paragraphs with their printed lines, as they are placed on pages.

use doc_model::{Label, List, Name, ParId, Props, Txt};

/// A paragraph of the body or of an endnote with its printed lines. A hidden one has no line.
#[derive(Debug, Drop)]
pub struct ParRows {
    /// The paragraph.
    pub par: ParId,
    /// The master that its style or an ancestor of it states. `None` is unstated; the empty name may be stated.
    pub master: Option<Name>,
    /// The level of a heading of the body, 1 to 10, else 0.
    pub level: u8,
    /// The label of a heading.
    pub label: Label,
    /// The text of a heading, without its label.
    pub quote: Txt,
    /// Its printed lines.
    pub lines: List<Txt>,
    /// Its footnotes in the order of their items.
    pub notes: List<NoteRows>,
    /// Its effective properties.
    pub props: Props,
}

/// A footnote with its printed lines.
#[derive(Debug, Drop)]
pub struct NoteRows {
    /// The line of the paragraph, from 0, with the first character of the citation. `None` where the citation isn't shown.
    pub line: Option<u32>,
    /// The paragraphs of the note.
    pub pars: List<NotePar>,
}

/// A paragraph of a footnote with its printed lines.
#[derive(Debug, Drop)]
pub struct NotePar {
    /// The paragraph.
    pub par: ParId,
    /// Its printed lines.
    pub lines: List<Txt>,
}
