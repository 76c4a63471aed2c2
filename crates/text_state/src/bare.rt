//! Items without the paragraphs of their notes.

ghost use Rattle.std.specs.Prelude.{◌≡◌, IfOk, map};
ghost use Rattle.text_state.specs.PartRows.{item_rows, what_rows, note_rows};

use doc_model::{Item, Note, What};
use run_text::RunText;
use sqlite_items::{Boxed, Items};
use std::alloc::{AllocError, Global};

/// Copies of items, notes without their paragraphs.
pub(crate) fn bare_items(alloc: Global, items: &[Item]) -> Result<RunText<Item>, AllocError>
    ensures { IfOk result (λ text. text ≡ map (λ item. (item_rows item).0) items.now) }
{
    let mut copies = Vec::with_capacity(alloc, items.len())?;
    for item in items {
        copies.push(bare_item(alloc, item)?)?;
    }
    let mut text = RunText::new(alloc);
    text.splice(0, 0, copies.as_slice())?;
    Ok(text)
}

// A copy of an item.
#[tactic(auto, using(node_array::proofs::OneBody::item_opens))]
fn bare_item(alloc: Global, item: &Item) -> Result<Item, AllocError>
    ensures { IfOk result (λ bare. bare ≡ (item_rows item.now).0) }
{
    let spans = item.spans.copy()?;
    let what = bare_what(alloc, &item.what)?;
    Ok(Item { spans, what })
}

// A copy of what an item is.
fn bare_what(alloc: Global, what: &What) -> Result<What, AllocError>
    ensures { IfOk result (λ bare. bare ≡ (what_rows what.now).0) }
{
    match what {
        What::Char(letter) => Ok(What::Char(*letter)),
        What::Tab => Ok(What::Tab),
        What::Break => Ok(What::Break),
        What::Field(field) => Ok(What::Field(Boxed::new(alloc, field.get().copy()?)?)),
        What::Note(note) => Ok(What::Note(Boxed::new(alloc, bare_note(alloc, note.get())?)?)),
        What::Mark(mark) => Ok(What::Mark(Boxed::new(alloc, mark.get().copy()?)?)),
    }
}

// A copy of a note.
fn bare_note(alloc: Global, note: &Note) -> Result<Note, AllocError>
    ensures { IfOk result (λ bare. bare ≡ (note_rows note.now).0) }
{
    let id = note.id.copy()?;
    Ok(Note {
        id,
        class: note.class,
        pars: Items::new(alloc),
    })
}
