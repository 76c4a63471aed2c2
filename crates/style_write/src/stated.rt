//! Attributes that are written where they are stated.

ghost use Rattle.std.specs.Prelude.{◌≡◌, ◌++◌, [], ◌∷◌, chars, string_bytes, decimal, OnOk};
ghost use Rattle.std.specs.List.{flat_map};
ghost use Rattle.style_model.specs.Lengths.{length_spelling};
ghost use Rattle.tree_text.specs.Writing.{attr_text};
ghost use Rattle.written_model.specs.Elements.{attribute, where_stated};
ghost use Rattle.written_model.specs.Values as named;

use crate::lengths::push_length;
use crate::words::{align_text, break_text, display_text, keep_text};
use doc_model::{Align, BreakAt, Length, PageStart};
use std::alloc::AllocError;
use value_write::{push_number, push_text};

/// Adds an attribute with a length.
fn push_length_attribute(out: &mut String, name: &str, length: Length) -> Result<(), AllocError>
    ensures { OnOk result (chars (string_bytes out.new) ≡ chars (string_bytes out.old) ++ flat_map attr_text (attribute (chars name.now) (length_spelling length) ∷ [])) }
{
    let mut text = String::new(*out.allocator());
    push_length(&mut text, length)?;
    push_text(out, name, text.as_str())
}

/// Adds an attribute with a length, where it is stated.
pub fn push_length_stated(
    out: &mut String,
    name: &str,
    length: Option<Length>,
) -> Result<(), AllocError>
    ensures { OnOk result (chars (string_bytes out.new) ≡ chars (string_bytes out.old) ++ flat_map attr_text (where_stated (chars name.now) length_spelling length)) }
{
    match length {
        None => Ok(()),
        Some(length) => push_length_attribute(out, name, length),
    }
}

/// Adds where lines stand, where it is stated.
pub fn push_align_stated(
    out: &mut String,
    name: &str,
    value: Option<Align>,
) -> Result<(), AllocError>
    ensures { OnOk result (chars (string_bytes out.new) ≡ chars (string_bytes out.old) ++ flat_map attr_text (where_stated (chars name.now) named.align_text value)) }
{
    match value {
        None => Ok(()),
        Some(value) => push_text(out, name, align_text(value)),
    }
}

/// Adds a break, where it is stated.
pub fn push_break_stated(
    out: &mut String,
    name: &str,
    value: Option<BreakAt>,
) -> Result<(), AllocError>
    ensures { OnOk result (chars (string_bytes out.new) ≡ chars (string_bytes out.old) ++ flat_map attr_text (where_stated (chars name.now) named.break_text value)) }
{
    match value {
        None => Ok(()),
        Some(value) => push_text(out, name, break_text(value)),
    }
}

/// Adds whether a paragraph is kept, where it is stated.
pub fn push_keep_stated(out: &mut String, name: &str, value: Option<bool>) -> Result<(), AllocError>
    ensures { OnOk result (chars (string_bytes out.new) ≡ chars (string_bytes out.old) ++ flat_map attr_text (where_stated (chars name.now) named.keep_text value)) }
{
    match value {
        None => Ok(()),
        Some(value) => push_text(out, name, keep_text(value)),
    }
}

/// Adds whether text is shown, where it is stated.
pub fn push_display_stated(
    out: &mut String,
    name: &str,
    value: Option<bool>,
) -> Result<(), AllocError>
    ensures { OnOk result (chars (string_bytes out.new) ≡ chars (string_bytes out.old) ++ flat_map attr_text (where_stated (chars name.now) named.display_text value)) }
{
    match value {
        None => Ok(()),
        Some(value) => push_text(out, name, display_text(value)),
    }
}

/// Adds a number, where it is stated.
pub fn push_number_stated(out: &mut String, name: &str, value: Option<u8>) -> Result<(), AllocError>
    ensures { OnOk result (chars (string_bytes out.new) ≡ chars (string_bytes out.old) ++ flat_map attr_text (where_stated (chars name.now) decimal value)) }
{
    match value {
        None => Ok(()),
        Some(value) => push_number(out, name, value as u32),
    }
}

/// Adds the number of the page on which a paragraph begins.
fn push_page_start(out: &mut String, name: &str, start: PageStart) -> Result<(), AllocError>
    ensures { OnOk result (chars (string_bytes out.new) ≡ chars (string_bytes out.old) ++ flat_map attr_text (attribute (chars name.now) (named.page_start_text start) ∷ [])) }
{
    match start {
        PageStart::Auto => push_text(out, name, "auto"),
        PageStart::At(number) => push_number(out, name, number as u32),
    }
}

/// Adds it where it is stated.
pub fn push_page_start_stated(
    out: &mut String,
    name: &str,
    start: Option<PageStart>,
) -> Result<(), AllocError>
    ensures { OnOk result (chars (string_bytes out.new) ≡ chars (string_bytes out.old) ++ flat_map attr_text (where_stated (chars name.now) named.page_start_text start)) }
{
    match start {
        None => Ok(()),
        Some(start) => push_page_start(out, name, start),
    }
}
