//! The printed row of a line.

ghost use Rattle.std.specs.Prelude.{◌≡◌, ◌+◌, ◌-◌, ◌<◌, ◌^◌, ◌++◌, length, chars, encode_utf8, string_bytes, map, replicate, IfOk, OnOk};
ghost use Rattle.std.specs.List.{Contains, between};
ghost use Rattle.line_model.specs.Lines.{lines_of, columns_of, end_of, lead, width, without_last_spaces};
ghost use Rattle.line_model.specs.Rows.{printed_byte, printed_row, row_of_text, shift};

use crate::clusters::units;
use crate::margins::{lead, width};
use doc_model::{Align, Txt};
use line_model::{Key, Line, TextUnit, UnitClass};
use std::alloc::{AllocError, Global};

/// The row that a line of a key prints: the columns before the line as spaces, and its text with a space for each tab and
/// without the spaces at its end. A line of nothing but spaces prints nothing. It looks at no more of the key's text than the line.
pub fn row(alloc: Global, key: &Key, line: &Line) -> Result<Txt, AllocError>
    requires line { Contains (lines_of key.now) line.now }
    ensures { IfOk result (λ row. row ≡ chars (printed_row key.now line.now)) }
{
    row_of_text(alloc, key, line.from, line_text(key, line))
}

/// The row of a line with this text, which begins at this place.
pub(crate) fn row_of_text(
    alloc: Global,
    key: &Key,
    from: u32,
    text: &str,
) -> Result<Txt, AllocError>
    requires { length text.now < 2 ^ 32 }
    ensures { IfOk result (λ row. row ≡ chars (row_of_text key.now from text.now)) }
{
    let units = units(alloc, text)?;
    let shown = without_last_spaces(units.get());
    let mut row = String::new(alloc);
    if !shown.is_empty() {
        push_spaces(&mut row, spaces_before(key, from, shown))?;
        push_printed(&mut row, &text[..end_of(shown) as usize])?;
    }
    Ok(Txt::from_list(row))
}

/// The text of a line.
fn line_text<'a>(key: &'a Key, line: &Line) -> &'a str
    requires { Contains (lines_of key.now) line.now }
    ensures text { result.now ≡ between line.now.from line.now.to key.now.text }
    ensures short { length result.now < 2 ^ 32 }
{
    &key.text.get()[line.from as usize..line.to as usize]
}

/// How many spaces stand before units that are the line which begins at this place.
fn spaces_before(key: &Key, from: u32, shown: &[TextUnit]) -> u64
    ensures { result ≡ lead key.now from + shift key.now.align (width key.now from - columns_of shown.now) }
{
    let missing = missing_columns(width(key, from), shown);
    u64::from(lead(key, from)) + u64::from(shift(key.align, missing))
}

/// The place behind units that begin at 0.
fn end_of(units: &[TextUnit]) -> u32
    ensures { result ≡ end_of 0 units.now }
{
    match units.split_last() {
        Some((last, _)) => last.to,
        None => 0,
    }
}

/// Units without the spaces at their end.
fn without_last_spaces(units: &[TextUnit]) -> &[TextUnit]
    ensures { result.now ≡ without_last_spaces units.now }
{
    let mut shown = units;
    'spaces: while let Some((last, front)) = shown.split_last() {
        if last.class != UnitClass::Space {
            break;
        }
        shown = front;
    }
    shown
}

/// How many columns of a width units leave free.
fn missing_columns(width: u32, units: &[TextUnit]) -> u32
    ensures { result ≡ width - columns_of units.now }
{
    let mut missing = width;
    for unit in units {
        missing = missing.saturating_sub(unit.columns);
    }
    missing
}

/// The columns before a line that misses so many.
fn shift(align: Align, missing: u32) -> u32
    ensures { result ≡ shift align missing }
{
    match align {
        Align::Start => 0,
        Align::Center => missing / 2,
        Align::End => missing,
    }
}

/// Adds so many spaces.
fn push_spaces(row: &mut String, count: u64) -> Result<(), AllocError>
    ensures { OnOk result (string_bytes row.new ≡ string_bytes row.old ++ replicate count 0x20) }
{
    for _ in 0..count {
        row.push(' ')?;
    }
    Ok(())
}

/// Adds a text as it is printed: with a space for each tab.
fn push_printed(row: &mut String, text: &str) -> Result<(), AllocError>
    ensures { OnOk result (string_bytes row.new ≡ string_bytes row.old ++ map printed_byte text.now) }
{
    for char in text.chars() {
        row.push(printed_char(char))?;
    }
    Ok(())
}

/// The character that is printed for one of a text.
fn printed_char(char: char) -> char
    ensures { encode_utf8 result ≡ map printed_byte (encode_utf8 char) }
{
    if char == '\t' { ' ' } else { char }
}
