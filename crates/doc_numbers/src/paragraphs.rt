//! Paragraphs and the notes in them.
ghost use Rattle.std.specs.Prelude.{◌≡◌, ℕ, ◌+◌, ◌<◌, ◌^◌, List, [], map, length, IfOk, OnOk};
ghost use Rattle.std.specs.List.{flat_map, list_any};
ghost use Rattle.std.specs.Option.{option_map};
ghost use Rattle.doc_model.specs.declared.paragraph.What.{out-What};
ghost use Rattle.doc_model.specs.declared.paragraph.Note.{out-Note};
ghost use Rattle.doc_model.specs.Alike.{in_note, in_paragraph};
ghost use Rattle.doc_model.specs.Reading.{with_notes};
ghost use Rattle.load_model.specs.Loaded.{at_most_ten, numbered};
ghost use Rattle.doc_numbers.specs.Numbering.{Follow, with_number, note_pars, what_pars, in_text, in_what, is_note, is_note_what};

use doc_model::{Item, ListPos, Note, Par, ParId, What};
use item_stack::Stack;
use sqlite_items::{Boxed, Items};
use std::alloc::{AllocError, Global};

/// The paragraph with its notes, numbered behind the last number that was given.
pub(crate) fn number_par(alloc: Global, par: Par, last: &mut u32) -> Result<Par, AllocError>
    requires { last.old + length (with_notes par) < 2 ^ 32 }
    ensures counted { OnOk result (last.new ≡ last.old + length (with_notes par)) }
    ensures numbered { IfOk result (λ one. (numbers : List ℕ) → Follow numbers last.old (with_notes par) → one ≡ in_paragraph (numbered numbers) par) }
{
    *last += 1;
    let Par {
        id,
        style,
        level,
        list,
        items,
    } = with_number(par, *last);
    let items = number_items(alloc, items, last)?;
    Ok(Par {
        id,
        style,
        level,
        list,
        items,
    })
}

// The paragraph with a number, and with at most ten levels of its list place.
fn with_number(par: Par, number: u32) -> Par
    ensures { result ≡ with_number number par }
{
    let Par {
        id: _id,
        style,
        level,
        list,
        items,
    } = par;
    Par {
        id: ParId(number),
        style,
        level,
        list: at_most_ten(list),
        items,
    }
}

// The list place with at most ten levels.
fn at_most_ten(list: Option<ListPos>) -> Option<ListPos>
    ensures { result ≡ option_map at_most_ten list }
{
    match list {
        Some(place) => {
            let ListPos {
                style,
                level,
                item,
                fresh,
            } = place;
            Some(ListPos {
                style,
                level: level.min(10),
                item,
                fresh,
            })
        }
        None => None,
    }
}

// The items with the paragraphs of their notes numbered. Where there is no note they stay as they are.
fn number_items(
    alloc: Global,
    items: Items<Item>,
    last: &mut u32,
) -> Result<Items<Item>, AllocError>
    requires { last.old + length (flat_map note_pars items) < 2 ^ 32 }
    ensures counted { OnOk result (last.new ≡ last.old + length (flat_map note_pars items)) }
    ensures numbered { IfOk result (λ all. (numbers : List ℕ) → Follow numbers last.old (flat_map note_pars items) → all ≡ map (in_note (numbered numbers)) items) }
{
    if !has_note(items.as_slice()) {
        return Ok(items);
    }
    let mut left = Stack::from_items(alloc, items)?;
    let mut done = Vec::with_capacity(alloc, left.len())?;
    'left: while let Some(item) = left.pop() {
        done.push(number_item(alloc, item, last)?)?;
    }
    Ok(Items::from_vec(done))
}

// Whether one of the items is a note.
fn has_note(items: &[Item]) -> bool
    ensures { result ≡ list_any is_note items.now }
{
    'items: for item in items {
        if is_note(&item.what) {
            return true;
        }
    }
    false
}

// Whether this is a note.
fn is_note(what: &What) -> bool
    ensures { result ≡ is_note_what (out-What what.now) }
{
    matches!(what, What::Note(_))
}

// The item with the paragraphs of its note numbered.
fn number_item(alloc: Global, item: Item, last: &mut u32) -> Result<Item, AllocError>
    requires { last.old + length (note_pars item) < 2 ^ 32 }
    ensures counted { OnOk result (last.new ≡ last.old + length (note_pars item)) }
    ensures numbered { IfOk result (λ one. (numbers : List ℕ) → Follow numbers last.old (note_pars item) → one ≡ in_note (numbered numbers) item) }
{
    let Item { spans, what } = item;
    let what = number_what(alloc, what, last)?;
    Ok(Item { spans, what })
}

// What an item is, with the paragraphs of the note numbered.
fn number_what(alloc: Global, what: What, last: &mut u32) -> Result<What, AllocError>
    requires { last.old + length (what_pars (out-What what)) < 2 ^ 32 }
    ensures counted { OnOk result (last.new ≡ last.old + length (what_pars (out-What what))) }
    ensures numbered { IfOk result (λ one. (numbers : List ℕ) → Follow numbers last.old (what_pars (out-What what)) → one ≡ in_what (numbered numbers) (out-What what)) }
{
    match what {
        What::Note(note) => {
            let note = number_note(alloc, note.into_inner(), last)?;
            Ok(What::Note(Boxed::new(alloc, note)?))
        }
        other => Ok(other),
    }
}

// The note with its paragraphs numbered.
fn number_note(alloc: Global, note: Note, last: &mut u32) -> Result<Note, AllocError>
    requires { last.old + length (out-Note note).pars < 2 ^ 32 }
    ensures counted { OnOk result (last.new ≡ last.old + length (out-Note note).pars) }
    ensures numbered { IfOk result (λ one. (numbers : List ℕ) → Follow numbers last.old (out-Note note).pars → one ≡ in_text (numbered numbers) note) }
{
    let Note { id, class, pars } = note;
    let pars = number_pars(alloc, Stack::from_items(alloc, pars)?, last)?;
    Ok(Note { id, class, pars })
}

// The paragraphs of a note, numbered. What they hold stays as it is.
fn number_pars(alloc: Global, pars: Stack<Par>, last: &mut u32) -> Result<Items<Par>, AllocError>
    requires { last.old + length pars < 2 ^ 32 }
    ensures counted { OnOk result (last.new ≡ last.old + length pars) }
    ensures numbered { IfOk result (λ all. (numbers : List ℕ) → Follow numbers last.old pars → all ≡ map (numbered numbers) pars) }
{
    let mut left = pars;
    let mut done = Vec::with_capacity(alloc, left.len())?;
    'left: while let Some(par) = left.pop() {
        *last += 1;
        done.push(with_number(par, *last))?;
    }
    Ok(Items::from_vec(done))
}
