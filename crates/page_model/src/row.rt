//! Rows, with what the breaking of pages reads of them.

use crate::body::HeadText;
use doc_model::{List, Txt};

/// A body row: a line of a paragraph, with what the breaking of pages reads of the paragraph at this line.
#[derive(Debug, Drop)]
pub struct Row {
    /// The printed line.
    pub text: Txt,
    /// The rows of the footnotes whose citations begin in this line.
    pub notes: List<NoteRow>,
    /// The least level, from 0 to 2, at which a page may end behind it.
    pub level: u8,
    /// Whether a page must end in front of it.
    pub begins: bool,
    /// Whether a page must end behind it.
    pub ends: bool,
    /// The blank rows that it wants in front of it.
    pub above: u32,
    /// The blank rows that it wants behind it.
    pub below: u32,
    /// What its paragraph states for a page that begins with it, where it is the first row of the paragraph.
    pub first: Option<First>,
}

/// What the first row of a paragraph brings.
#[derive(Debug, Drop)]
pub struct First {
    /// The place of the paragraph in the order in which paragraphs are set, from 0.
    pub place: usize,
    /// The place of the stated master among the masters, from 0.
    pub master: Option<usize>,
    /// The stated page number.
    pub number: Option<u16>,
    /// The heading that the paragraph is.
    pub heading: Option<Heading>,
}

/// A heading of the body.
#[derive(Debug, Drop)]
pub struct Heading {
    /// Its level, 1 to 10.
    pub level: u8,
    /// Its label and text.
    pub text: HeadText,
}

/// A row of a footnote.
#[derive(Debug, Drop)]
pub struct NoteRow {
    /// The place of its paragraph in the order in which paragraphs are set, from 0, where it is the first row of it.
    pub place: Option<usize>,
    /// The printed line.
    pub text: Txt,
}
