//! Changes of the items of a paragraph.

ghost use Rattle.std.specs.Prelude.{◌≡◌, ◌≤◌, ◌++◌, map, take, drop, length, chars, IfOk, OnOk};
ghost use Rattle.std.specs.List.{splice};
ghost use Rattle.doc_model.specs.Plain.{plain_item};

use doc_model::{Item, Spans, What};
use sqlite_items::Items;
use std::alloc::{AllocError, Global};

/// Puts the characters of a text in the place of the items from `from` to `to`.
/// After want of memory the items behind `from` may be gone.
pub fn replace_range(
    alloc: Global,
    items: &mut Items<Item>,
    from: usize,
    to: usize,
    text: &str,
) -> Result<(), AllocError>
    requires order { from ≤ to }
    requires within { to ≤ length items.old }
    ensures { OnOk result (items.new ≡ splice items.old from to (map plain_item (chars text.now))) }
{
    let tail = split_off(alloc, items, to)?;
    truncate(items, from);
    push_text(alloc, items, text)?;
    items.append(Items::from_vec(tail))
}

// Takes the items from `at` on off the end.
fn split_off(alloc: Global, items: &mut Items<Item>, at: usize) -> Result<Vec<Item>, AllocError>
    requires { at ≤ length items.old }
    ensures kept { OnOk result (items.new ≡ take at items.old) }
    ensures taken { IfOk result (λ tail. tail.items ≡ drop at items.old) }
{
    let mut tail = Vec::with_capacity(alloc, items.len() - at)?;
    'behind: while items.len() > at {
        let Some(item) = items.pop() else { break };
        tail.push(item)?;
    }
    tail.reverse();
    Ok(tail)
}

// Drops the items from `at` on.
fn truncate(items: &mut Items<Item>, at: usize)
    requires { at ≤ length items.old }
    ensures { items.new ≡ take at items.old }
{
    'behind: while items.len() > at {
        let _last = items.pop();
    }
}

// Adds a character without spans for each character of the text.
fn push_text(alloc: Global, items: &mut Items<Item>, text: &str) -> Result<(), AllocError>
    ensures { OnOk result (items.new ≡ items.old ++ map plain_item (chars text.now)) }
{
    'letters: for letter in text.chars() {
        items.push(Item {
            spans: Spans::none(alloc),
            what: What::Char(letter),
        })?;
    }
    Ok(())
}
