//! What else attributes of fields state.
ghost use Rattle.std.specs.Prelude.{◌≡◌, chars, pos, unwrap_or};
ghost use Rattle.load_model.specs.declared.names.Key.TheVariants as key;
ghost use Rattle.load_model.specs.Values as values;
ghost use Rattle.load_model.specs.Values.{stated_or};

use doc_model::{ChapterShow, Format, NoteClass, PageAdjust, RefForm, Select, SeqForm};
use load_model::{Attribute, Key};
use read_values::{
    chapter_display, note_class, number, number_format, page_adjust, page_select, reference_form,
    sequence_form, value_of,
};

/// How a number is shown.
pub(crate) fn format_stated(attributes: &[Attribute]) -> Format
    ensures { result ≡ stated_or key.NumberFormat values.number_format Format.Digits attributes.now }
{
    match value_of(Key::NumberFormat, attributes) {
        Some(text) => number_format(text).unwrap_or(Format::Digits),
        None => Format::Digits,
    }
}

/// What a chapter field shows.
pub(crate) fn show_stated(attributes: &[Attribute]) -> ChapterShow
    ensures { result ≡ stated_or key.Display values.chapter_display ChapterShow.Name attributes.now }
{
    match value_of(Key::Display, attributes) {
        Some(text) => chapter_display(text).unwrap_or(ChapterShow::Name),
        None => ChapterShow::Name,
    }
}

/// The greatest level of the headings that a chapter field shows.
pub(crate) fn level_stated(attributes: &[Attribute]) -> u8
    ensures { result ≡ stated_or key.OutlineLevel values.level 1 attributes.now }
{
    match value_of(Key::OutlineLevel, attributes) {
        Some(text) => level_or_one(text),
        None => 1,
    }
}

// The level of a text, or 1 where it is none.
fn level_or_one(text: &str) -> u8
    ensures { result ≡ unwrap_or (values.level (chars text.now)) 1 }
{
    match number(1, 10, text) {
        Some(level) => level as u8,
        None => 1,
    }
}

/// Which page's number a field shows.
pub(crate) fn select_stated(attributes: &[Attribute]) -> Select
    ensures { result ≡ stated_or key.SelectPage values.page_select Select.Current attributes.now }
{
    match value_of(Key::SelectPage, attributes) {
        Some(text) => page_select(text).unwrap_or(Select::Current),
        None => Select::Current,
    }
}

/// How many pages are added.
pub(crate) fn adjust_stated(attributes: &[Attribute]) -> PageAdjust
    ensures { result ≡ stated_or key.PageAdjust values.page_adjust (pos 0) attributes.now }
{
    match value_of(Key::PageAdjust, attributes) {
        Some(text) => page_adjust(text).unwrap_or(no_pages()),
        None => no_pages(),
    }
}

// No page is added.
fn no_pages() -> PageAdjust
    ensures { result ≡ pos 0 }
{
    match PageAdjust::new(0) {
        Some(adjust) => adjust,
        None => unreachable!(),
    }
}

/// What a reference shows.
pub(crate) fn form_stated(attributes: &[Attribute]) -> RefForm
    ensures { result ≡ stated_or key.ReferenceFormat values.reference_form RefForm.Text attributes.now }
{
    match value_of(Key::ReferenceFormat, attributes) {
        Some(text) => reference_form(text).unwrap_or(RefForm::Text),
        None => RefForm::Text,
    }
}

/// What a reference to a sequence field shows.
pub(crate) fn sequence_form_stated(attributes: &[Attribute]) -> SeqForm
    ensures { result ≡ stated_or key.ReferenceFormat values.sequence_form SeqForm.Text attributes.now }
{
    match value_of(Key::ReferenceFormat, attributes) {
        Some(text) => sequence_form(text).unwrap_or(SeqForm::Text),
        None => SeqForm::Text,
    }
}

/// The class of the note that is referred to.
pub(crate) fn class_stated(attributes: &[Attribute]) -> NoteClass
    ensures { result ≡ stated_or key.NoteClass values.note_class NoteClass.Footnote attributes.now }
{
    match value_of(Key::NoteClass, attributes) {
        Some(text) => note_class(text).unwrap_or(NoteClass::Footnote),
        None => NoteClass::Footnote,
    }
}
