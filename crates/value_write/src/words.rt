//! Words of values, each by the first of its spellings.

ghost use Rattle.std.specs.Prelude.{◌≡◌, chars};
ghost use Rattle.written_model.specs.Values as named;

use doc_model::{ChapterShow, Format, NoteClass, RefForm, Select, SeqForm};

/// Whether something holds.
pub fn truth(on: bool) -> &'static str
    ensures { chars result.now ≡ named.truth on }
{
    if on { "true" } else { "false" }
}

/// How a number is shown.
pub fn format_text(format: Format) -> &'static str
    ensures { chars result.now ≡ named.format_text format }
{
    match format {
        Format::Digits => "1",
        Format::LowerLetter => "a",
        Format::UpperLetter => "A",
        Format::LowerRoman => "i",
        Format::UpperRoman => "I",
        Format::Empty => "",
    }
}

/// What a chapter field shows.
pub fn chapter_text(show: ChapterShow) -> &'static str
    ensures { chars result.now ≡ named.chapter_text show }
{
    match show {
        ChapterShow::Name => "name",
        ChapterShow::Number => "number",
        ChapterShow::PlainNumber => "plain-number",
        ChapterShow::NumberAndName => "number-and-name",
        ChapterShow::PlainNumberAndName => "plain-number-and-name",
    }
}

/// The page of a page number.
pub fn select_text(select: Select) -> &'static str
    ensures { chars result.now ≡ named.select_text select }
{
    match select {
        Select::Previous => "previous",
        Select::Current => "current",
        Select::Next => "next",
    }
}

/// What a reference shows.
pub fn reference_text(form: RefForm) -> &'static str
    ensures { chars result.now ≡ named.reference_text form }
{
    match form {
        RefForm::Text => "text",
        RefForm::Page => "page",
        RefForm::Chapter => "chapter",
        RefForm::Direction => "direction",
    }
}

/// What a reference to a sequence shows.
pub fn sequence_text(form: SeqForm) -> &'static str
    ensures { chars result.now ≡ named.sequence_text form }
{
    match form {
        SeqForm::Text => "text",
        SeqForm::Page => "page",
        SeqForm::Chapter => "chapter",
        SeqForm::Direction => "direction",
        SeqForm::Value => "value",
        SeqForm::CategoryAndValue => "category-and-value",
        SeqForm::Caption => "caption",
    }
}

/// Where a note is set.
pub fn class_text(class: NoteClass) -> &'static str
    ensures { chars result.now ≡ named.class_text class }
{
    match class {
        NoteClass::Footnote => "footnote",
        NoteClass::Endnote => "endnote",
    }
}
