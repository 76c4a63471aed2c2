//! How the values of attributes are read.
ghost use Rattle.std.specs.Prelude.{◌≡◌, chars};
ghost use Rattle.read_values.specs.Readings.{has_value};

use crate::{
    alignment, break_at, chapter_display, display, family, heading_level, keep, length, level,
    line_count, name, name_or_none, note_class, number, number_format, one_character, own_name,
    page_adjust, page_select, page_start, reference_form, sequence_form, truth,
};

/// How the value of an attribute is read.
#[derive(Debug, Clone, Copy, PartialEq, Eq)]
pub enum Reading {
    /// A truth value.
    Truth,
    /// A name.
    Name,
    /// A name that may be empty.
    NameOrNone,
    /// The name of something that others refer to: whether it is the first of that name.
    OwnName(bool),
    /// Any text.
    AnyText,
    /// One character.
    OneCharacter,
    /// A number from the first to the second.
    Number(u32, u32),
    /// How many lines stand together.
    LineCount,
    /// The level of a list or a heading.
    Level,
    /// The level of a heading, of which any above 10 is 10.
    HeadingLevel,
    /// A length.
    Length,
    /// The family of a style.
    Family,
    /// Where lines stand.
    Alignment,
    /// What ends before or behind a paragraph.
    Break,
    /// Whether a paragraph is kept together or with the next one.
    Keep,
    /// The number of the page behind a break.
    PageStart,
    /// Whether text is shown.
    Display,
    /// How numbers are written.
    NumberFormat,
    /// What a chapter field shows.
    ChapterDisplay,
    /// Which page's number a field shows.
    PageSelect,
    /// How many pages are added.
    PageAdjust,
    /// What a reference shows.
    ReferenceForm,
    /// What a reference to a sequence field shows.
    SequenceForm,
    /// The class of a note.
    NoteClass,
}

impl Reading {
    /// Whether a text has a value by this reading.
    pub fn is_good(self, text: &str) -> bool
        ensures { result ≡ has_value self (chars text.now) }
    {
        match self {
            Reading::Truth => truth(text).is_some(),
            Reading::Name => name(text).is_some(),
            Reading::NameOrNone => name_or_none(text).is_some(),
            Reading::OwnName(is_first) => own_name(is_first, text).is_some(),
            Reading::AnyText => true,
            Reading::OneCharacter => one_character(text).is_some(),
            Reading::Number(least, greatest) => number(least, greatest, text).is_some(),
            Reading::LineCount => line_count(text).is_some(),
            Reading::Level => level(text).is_some(),
            Reading::HeadingLevel => heading_level(text).is_some(),
            Reading::Length => length(text).is_some(),
            Reading::Family => family(text).is_some(),
            Reading::Alignment => alignment(text).is_some(),
            Reading::Break => break_at(text).is_some(),
            Reading::Keep => keep(text).is_some(),
            Reading::PageStart => page_start(text).is_some(),
            Reading::Display => display(text).is_some(),
            Reading::NumberFormat => number_format(text).is_some(),
            Reading::ChapterDisplay => chapter_display(text).is_some(),
            Reading::PageSelect => page_select(text).is_some(),
            Reading::PageAdjust => page_adjust(text).is_some(),
            Reading::ReferenceForm => reference_form(text).is_some(),
            Reading::SequenceForm => sequence_form(text).is_some(),
            Reading::NoteClass => note_class(text).is_some(),
        }
    }
}
