//! Keys of paragraphs.

ghost use Rattle.std.specs.Prelude.{◌≡◌, ◌≤◌, ◌<◌, ◌+◌, ◌^◌, ◌++◌, [], pos, length, string_bytes, encode_utf8_all, unwrap_or, IfOk, OnOk};
ghost use Rattle.std.specs.List.{AllByRecursion as Each};
ghost use Rattle.key_parts.specs.Shows.{IsShort, text_of, citations};
ghost use Rattle.key_parts.specs.KeyFrom.{with_space, front_of, level_of, shown_of, key_from};

use crate::parts::KeyParts;
use crate::shown::{KeyText, push_items, push_text};
use doc_model::{Align, Length, List, ListPos, TabStop, TabStops, Txt};
use line_model::{Key, ShownText};
use std::alloc::{AllocError, Global};

/// The key of the paragraph of these parts. The places of citations are in bytes from the start of its whole text, the
/// label included.
pub fn key_of(alloc: Global, parts: &KeyParts<'_>) -> Result<Key, AllocError>
    requires items { length parts.now.items.now + length parts.now.more_items.now ≤ 32768 }
    requires citation { length parts.now.citation.now ≤ 512 }
    requires label { length parts.now.label.now ≤ 512 }
    requires shown { Each IsShort parts.now.shown.now }
    ensures { IfOk result (λ key. key ≡ key_from parts.now) }
{
    let out = written(alloc, parts)?;
    let tabs = tabs_of(alloc, &parts.props.tabs)?;
    Ok(Key {
        hidden: parts.in_hidden_section || parts.in_hidden_note,
        text: ShownText::from_text(out.text),
        notes: List::from_list(out.notes),
        columns: parts.columns,
        left: units_of(parts.props.margin_left),
        right: units_of(parts.props.margin_right),
        indent: units_of(parts.props.indent),
        level: level_of(parts.list),
        align: parts.props.align.unwrap_or(Align::Start),
        tabs,
    })
}

/// The text of the key, with the places of the citations.
fn written(alloc: Global, parts: &KeyParts<'_>) -> Result<KeyText, AllocError>
    requires items { length parts.now.items.now + length parts.now.more_items.now ≤ 32768 }
    requires citation { length parts.now.citation.now ≤ 512 }
    requires label { length parts.now.label.now ≤ 512 }
    requires shown { Each IsShort parts.now.shown.now }
    ensures text { IfOk result (λ out. string_bytes out.text ≡ front_of parts.now.citation.now parts.now.label.now ++ text_of (shown_of parts.now)) }
    ensures notes { IfOk result (λ out. out.notes.items ≡ citations (front_of parts.now.citation.now parts.now.label.now) (shown_of parts.now)) }
    ensures short { IfOk result (λ out. length (string_bytes out.text) < 2 ^ 32) }
{
    let mut out = KeyText {
        text: String::new(alloc),
        notes: Vec::new(alloc),
    };
    push_front(&mut out.text, parts.citation)?;
    push_front(&mut out.text, parts.label)?;
    let otherwise = parts.props.display.unwrap_or(true);
    let behind = push_items(
        &mut out,
        parts.displays,
        otherwise,
        parts.items,
        parts.shown,
    )?;
    push_items(
        &mut out,
        parts.displays,
        otherwise,
        parts.more_items,
        behind,
    )?;
    Ok(out)
}

/// Appends a text with a space behind it, if it isn't empty.
fn push_front(out: &mut String, text: &Txt) -> Result<(), AllocError>
    ensures { OnOk result (string_bytes out.new ≡ string_bytes out.old ++ encode_utf8_all (with_space text.now)) }
{
    if text.get().is_empty() {
        return Ok(());
    }
    push_text(out, text)?;
    out.push(' ')
}

/// The tab stops that are stated; none are where nothing is.
fn tabs_of(alloc: Global, tabs: &Option<TabStops>) -> Result<List<TabStop>, AllocError>
    ensures { IfOk result (λ stops. stops ≡ unwrap_or tabs.now []) }
{
    match tabs {
        Some(tabs) => List::from_slice(alloc, tabs.get()),
        None => Ok(List::new(alloc)),
    }
}

/// The units of a length that is stated; 0 where none is.
fn units_of(length: Option<Length>) -> i32
    ensures { result ≡ unwrap_or length (pos 0) }
{
    match length {
        Some(length) => length.units(),
        None => 0,
    }
}

/// The level of a list place; 0 is none.
fn level_of(list: &Option<ListPos>) -> u8
    ensures { result ≡ level_of list.now }
{
    match list {
        Some(place) => place.level,
        None => 0,
    }
}
