//! What elements are where the content of a header is read.
ghost use Rattle.std.specs.Prelude.{◌≡◌};
ghost use Rattle.head_content.specs.Parts.{part_of};

use load_model::Tag;

/// What an element is in a header.
#[derive(Debug, Clone, Copy, PartialEq, Eq)]
pub(crate) enum Part {
    /// A span, which is passed with a count by its style.
    Span,
    /// Spaces.
    Spaces,
    /// A tab.
    Tab,
    /// A line break.
    Break,
    /// A field that stays one.
    Field,
    /// A field of which the stored text stays.
    StoredText,
    /// An element that goes with all that it holds.
    Dropped,
    /// An element that goes, and what it holds is read at its place.
    Passed,
}

/// What an element of a tag is.
pub(crate) fn part_of(tag: Tag) -> Part
    ensures { result ≡ part_of tag }
{
    match tag {
        Tag::Span => Part::Span,
        Tag::Spaces => Part::Spaces,
        Tag::Tab => Part::Tab,
        Tag::LineBreak => Part::Break,
        Tag::Chapter | Tag::PageNumber | Tag::PageCount => Part::Field,
        Tag::Sequence | Tag::VariableSet | Tag::VariableGet => Part::StoredText,
        Tag::BookmarkReference | Tag::SequenceReference => Part::StoredText,
        Tag::NoteReference => Part::StoredText,
        Tag::Note | Tag::Bookmark | Tag::BookmarkStart | Tag::BookmarkEnd => Part::Dropped,
        Tag::Document | Tag::CommonStyles | Tag::AutomaticStyles => Part::Dropped,
        Tag::MasterStyles | Tag::Body | Tag::Text => Part::Dropped,
        Tag::RubyText | Tag::Foreign => Part::Dropped,
        _ => Part::Passed,
    }
}
