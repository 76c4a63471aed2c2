//! The text of a paragraph, and the key of one that states nothing.

ghost use Rattle.std.specs.Prelude.{◌≡◌, ◌≤◌, ◌++◌, length, string_bytes, IfOk, OnOk};
ghost use Rattle.std.specs.Str.{encode_utf8_all};
ghost use Rattle.line_model.specs.Keys.{text_of, key_of};
ghost use Rattle.doc_model.specs.Parts.{items_of};
ghost use Rattle.par_keys.specs.ItemText.{text_of_item};

use doc_model::{Align, Item, List, Par, Txt, What};
use line_model::{Key, ShownText};
use std::alloc::{AllocError, Global};

/// The columns of a page of 8.5 by 11 inches with margins of 0.7874 inches, of which 10 columns take an inch.
const UNSTATED_COLUMNS: u32 = 69;

/// The text of a paragraph: its characters, with U+9 for a tab and U+A for a break. Fields, notes and bookmarks have
/// none.
pub fn text_of(alloc: Global, par: &Par) -> Result<Txt, AllocError>
    ensures { IfOk result (λ text. text ≡ text_of par.now) }
{
    Ok(Txt::from_list(shown(alloc, par)?))
}

/// The key of a paragraph that has no style, no list place and no note, on a page that no layout is stated for.
pub fn key_of(alloc: Global, par: &Par) -> Result<Key, AllocError>
    requires few { length (items_of par.now) ≤ 32768 }
    ensures { IfOk result (λ key. key ≡ key_of par.now) }
{
    let text = ShownText::from_text(shown(alloc, par)?);
    Ok(Key {
        hidden: false,
        text,
        notes: List::new(alloc),
        columns: UNSTATED_COLUMNS,
        left: 0,
        right: 0,
        indent: 0,
        level: 0,
        align: Align::Start,
        tabs: List::new(alloc),
    })
}

// The text of a paragraph, in UTF-8.
fn shown(alloc: Global, par: &Par) -> Result<String, AllocError>
    ensures { IfOk result (λ text. string_bytes text ≡ encode_utf8_all (text_of par.now)) }
{
    let mut text = String::new(alloc);
    'items: for item in par.items.as_slice() {
        push_item(&mut text, item)?;
    }
    Ok(text)
}

// Appends what an item shows.
fn push_item(text: &mut String, item: &Item) -> Result<(), AllocError>
    ensures { OnOk result (string_bytes text.new ≡ string_bytes text.old ++ encode_utf8_all (text_of_item item.now)) }
{
    match &item.what {
        What::Char(letter) => text.push(*letter),
        What::Tab => text.push('\t'),
        What::Break => text.push('\n'),
        _ => Ok(()),
    }
}
