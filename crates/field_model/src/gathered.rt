//! Paragraphs as they are gathered, and what fields ask of them.

use doc_model::{Format, Label, Name, NoteClass, ParId, Txt};

/// Where a gathered paragraph stands.
#[derive(Debug, Clone, Copy, PartialEq, Eq)]
pub enum Gathered {
    /// In the body.
    Body,
    /// In the note of this number, from 1, among those of the paragraph of the body that was gathered last.
    Note(u32),
}

/// The text of a field, or the citation of a note.
#[derive(Debug, Drop, PartialEq, Eq)]
pub struct Shown {
    /// The place of the field or the note item among the items of its paragraph, from 0.
    pub item: u32,
    /// What is shown.
    pub text: Txt,
}

/// Where something stands in reading order. The paragraphs of a note are read where its item is met, so that what the
/// reader meets there comes before the rest of the item's paragraph; hence two places: what is read at an earlier anchor
/// comes first, and at one anchor what was gathered first. Places count the heads and items of all gathered paragraphs,
/// from 0.
#[derive(Debug, Clone, Copy, PartialEq, Eq)]
pub struct Spot {
    /// The place in the body where it is read: its own, or that of the item of its note.
    pub anchor: usize,
    /// Its own place.
    pub at: usize,
}

/// A piece of what quotes show.
#[derive(Debug, Drop)]
pub enum Piece {
    /// A paragraph begins: between two paragraphs a space is shown.
    Gap,
    /// A character.
    Char(char),
    /// A sequence field: its name, its format and where it stands.
    Number(Name, Format, Spot),
    /// A field that shows a variable: its name and where it stands.
    Variable(Name, Spot),
}

/// A field that sets a variable.
#[derive(Debug, Drop)]
pub struct VariableSet {
    /// Where it stands.
    pub spot: Spot,
    /// The value from here on.
    pub value: Txt,
}

/// What a reference may point to.
#[derive(Debug, Clone, Copy)]
pub struct Target {
    /// The place of its paragraph among the gathered ones, from 0.
    pub par: usize,
    /// Whether it stands in a note.
    pub in_note: bool,
    /// Where it stands.
    pub spot: Spot,
    /// How many pieces quotes have in front of it: in the body, or in all notes.
    pub from: usize,
}

/// A sequence field that has a reference name.
#[derive(Debug, Drop)]
pub struct SequenceTarget {
    /// Where it is.
    pub target: Target,
    /// The sequence that it counts.
    pub name: Name,
    /// How its number is shown.
    pub format: Format,
}

/// A note that has an id.
#[derive(Debug, Clone, Copy)]
pub struct NoteTarget {
    /// Where its item is.
    pub target: Target,
    /// Its class.
    pub class: NoteClass,
    /// Its number among the notes of its class, from 1.
    pub number: usize,
}

/// A gathered paragraph.
#[derive(Debug, Drop)]
pub struct ParPlace {
    /// Its number.
    pub id: ParId,
    /// Whether it stands in a note.
    pub in_note: bool,
    /// The place of its head in the order in which it was gathered.
    pub at: usize,
    /// The place of the item of its note; 0 in the body.
    pub anchor: usize,
    /// How many pieces quotes have in front of its first item: in the body, or in all notes.
    pub from: usize,
    /// How many footnotes are cited in front of it.
    pub footnotes: usize,
    /// How many endnotes are cited in front of it.
    pub endnotes: usize,
    /// Its label.
    pub label: Label,
    /// For each level from 1 to 10 the last heading of at most that level up to it: its place among the gathered
    /// paragraphs, from 0.
    pub chapters: [Option<usize>; 10],
}
