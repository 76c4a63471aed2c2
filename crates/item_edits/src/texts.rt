//! Items that are put in at a place.

ghost use Rattle.std.specs.Prelude.{◌≡◌, ◌≤◌, length, map, IfOk};
ghost use Rattle.doc_model.specs.declared.paragraph.What.{out-What};
ghost use Rattle.edit_rules.specs.Texts.{spans_before, typed_item, with_item, with_text};

use crate::copied::spliced;
use doc_model::{Item, Spans, Txt, What};
use run_text::RunText;
use std::alloc::{AllocError, Global};

/// The items with those of a text at a place, where they have the spans of the item before.
pub fn with_text(
    alloc: Global,
    items: &RunText<Item>,
    at: usize,
    text: &Txt,
) -> Result<RunText<Item>, AllocError>
    requires in_range { at ≤ length items.now }
    ensures { IfOk result (λ new. new ≡ with_text at text.now items.now) }
{
    let spans = spans_before(alloc, items, at)?;
    let typed = typed_items(alloc, &spans, text)?;
    spliced(items, at, at, typed.as_slice())
}

/// The items with one of this kind at a place, where it has the spans of the item before.
pub fn with_item(
    alloc: Global,
    items: &RunText<Item>,
    at: usize,
    what: What,
) -> Result<RunText<Item>, AllocError>
    requires in_range { at ≤ length items.now }
    ensures { IfOk result (λ new. new ≡ with_item at (out-What what) items.now) }
{
    let spans = spans_before(alloc, items, at)?;
    let mut put = Vec::with_capacity(alloc, 1)?;
    put.push(Item { spans, what })?;
    spliced(items, at, at, put.as_slice())
}

// The spans of the item before a place, or none.
fn spans_before(alloc: Global, items: &RunText<Item>, at: usize) -> Result<Spans, AllocError>
    requires in_range { at ≤ length items.now }
    ensures { IfOk result (λ spans. spans ≡ spans_before at items.now) }
{
    if at == 0 {
        return Ok(Spans::none(alloc));
    }
    let (first, second) = items.slice(at - 1, at);
    match first.first().or(second.first()) {
        Some(item) => item.spans.copy(),
        None => Ok(Spans::none(alloc)),
    }
}

// The items of the characters of a text.
fn typed_items(alloc: Global, spans: &Spans, text: &Txt) -> Result<Vec<Item>, AllocError>
    ensures { IfOk result (λ typed. typed.items ≡ map (typed_item spans.now) text.now) }
{
    let mut typed = Vec::new(alloc);
    for letter in text.get().chars() {
        typed.push(typed_item(spans, letter)?)?;
    }
    Ok(typed)
}

// The item of a character.
fn typed_item(spans: &Spans, letter: char) -> Result<Item, AllocError>
    ensures { IfOk result (λ item. item ≡ typed_item spans.now letter) }
{
    let spans = spans.copy()?;
    let what = match letter {
        '\t' => What::Tab,
        '\n' => What::Break,
        _ => What::Char(letter),
    };
    Ok(Item { spans, what })
}
