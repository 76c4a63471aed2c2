//! What attributes state: nothing where one is absent or has a bad value.
ghost use Rattle.std.specs.Prelude.{◌≡◌, [], IfOk};
ghost use Rattle.doc_model.specs.declared.field.Format.TheVariants as format;
ghost use Rattle.load_model.specs.Styles as styles;
ghost use Rattle.load_model.specs.Values as values;
ghost use Rattle.load_model.specs.Values.{stated, stated_or};

use doc_model::{Align, BreakAt, Format, Length, LevelNumber, PageStart, Txt};
use load_model::{Attribute, Key};
use read_values::{
    alignment, break_at, display, keep, length, number, number_format, one_character, page_start,
    value_of,
};
use std::alloc::{AllocError, Global};

/// A length.
pub fn stated_length(key: Key, attributes: &[Attribute]) -> Option<Length>
    ensures { result ≡ stated key values.length_value attributes.now }
{
    match value_of(key, attributes) {
        Some(text) => length(text),
        None => None,
    }
}

/// A margin: its own attribute, or else that of all four.
pub fn margin(side: Key, attributes: &[Attribute]) -> Option<Length>
    ensures { result ≡ styles.margin side attributes.now }
{
    match stated_length(side, attributes) {
        Some(length) => Some(length),
        None => stated_length(Key::Margin, attributes),
    }
}

/// Where lines stand.
pub fn stated_alignment(key: Key, attributes: &[Attribute]) -> Option<Align>
    ensures { result ≡ stated key values.alignment attributes.now }
{
    match value_of(key, attributes) {
        Some(text) => alignment(text),
        None => None,
    }
}

/// What ends before or behind a paragraph.
pub fn stated_break(key: Key, attributes: &[Attribute]) -> Option<BreakAt>
    ensures { result ≡ stated key values.break_at attributes.now }
{
    match value_of(key, attributes) {
        Some(text) => break_at(text),
        None => None,
    }
}

/// Whether a paragraph is kept together or with the next one.
pub fn stated_keep(key: Key, attributes: &[Attribute]) -> Option<bool>
    ensures { result ≡ stated key values.keep attributes.now }
{
    match value_of(key, attributes) {
        Some(text) => keep(text),
        None => None,
    }
}

/// How many lines stand together at a page's end.
pub fn stated_lines(key: Key, attributes: &[Attribute]) -> Option<u8>
    ensures { result ≡ stated key values.line_count attributes.now }
{
    match value_of(key, attributes) {
        Some(text) => match number(0, 255, text) {
            Some(lines) => Some(lines as u8),
            None => None,
        },
        None => None,
    }
}

/// The number of the page behind a break.
pub fn stated_page_start(key: Key, attributes: &[Attribute]) -> Option<PageStart>
    ensures { result ≡ stated key values.page_start attributes.now }
{
    match value_of(key, attributes) {
        Some(text) => page_start(text),
        None => None,
    }
}

/// Whether text is shown.
pub fn stated_display(key: Key, attributes: &[Attribute]) -> Option<bool>
    ensures { result ≡ stated key values.display attributes.now }
{
    match value_of(key, attributes) {
        Some(text) => display(text),
        None => None,
    }
}

/// How numbers are written, or as the empty text where that isn't stated.
pub fn stated_format(key: Key, attributes: &[Attribute]) -> Format
    ensures { result ≡ stated_or key values.number_format format.Empty attributes.now }
{
    match value_of(key, attributes) {
        Some(text) => match number_format(text) {
            Some(format) => format,
            None => Format::Empty,
        },
        None => Format::Empty,
    }
}

/// A single character.
pub fn stated_character(key: Key, attributes: &[Attribute]) -> Option<char>
    ensures { result ≡ stated key values.one_character attributes.now }
{
    match value_of(key, attributes) {
        Some(text) => one_character(text),
        None => None,
    }
}

/// The number of the first item, or 1 where that isn't stated.
pub fn stated_start(key: Key, attributes: &[Attribute]) -> u16
    ensures { result ≡ stated_or key (values.number 0 65535) 1 attributes.now }
{
    match value_of(key, attributes) {
        Some(text) => match number(0, 65535, text) {
            Some(start) => start as u16,
            None => 1,
        },
        None => 1,
    }
}

/// The number of a level.
pub fn stated_level(key: Key, attributes: &[Attribute]) -> Option<LevelNumber>
    ensures { result ≡ stated key values.level attributes.now }
{
    match value_of(key, attributes) {
        Some(text) => match number(1, 10, text) {
            Some(number) => LevelNumber::new(number as u8),
            None => None,
        },
        None => None,
    }
}

/// The first level.
pub fn first_level() -> LevelNumber
    ensures { result ≡ 1 }
{
    match LevelNumber::new(1) {
        Some(level) => level,
        None => unreachable!(),
    }
}

/// Any text, or the empty one where none is stated.
pub fn stated_text(alloc: Global, key: Key, attributes: &[Attribute]) -> Result<Txt, AllocError>
    ensures { IfOk result (λ text. text ≡ stated_or key values.any_text [] attributes.now) }
{
    match value_of(key, attributes) {
        Some(text) => Ok(Txt::from_list(String::from_str(alloc, text)?)),
        None => Ok(Txt::none(alloc)),
    }
}
