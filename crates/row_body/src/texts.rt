//! Items with the paragraphs of their notes.
ghost use Rattle.std.specs.Prelude.{◌≡◌, ◌∷◌, ◌++◌, [], IfOk, OnOk};
ghost use Rattle.doc_model.specs.declared.paragraph.What.{out-What};
ghost use Rattle.doc_model.specs.declared.paragraph.What.TheOpen.{What-F};
ghost use Rattle.node_array.specs.Body.{with_text, texts_behind, with_texts, what_with, texts_left};
ghost use Rattle.row_body.specs.Parts.{texts_after};

use doc_model::{Item, Note, Par, What, copy_what};
use item_stack::Stack;
use run_text::RunText;
use sqlite_items::{Boxed, Items};
use std::alloc::{AllocError, Global};

/// Copies of items, where each note takes the first of the texts that are left as its paragraphs.
pub(crate) fn items_with(
    alloc: Global,
    items: &RunText<Item>,
    texts: &mut Stack<Items<Par>>,
) -> Result<Items<Item>, AllocError>
    ensures { IfOk result (λ copies. copies ≡ with_texts items.now texts.old) }
{
    let len = items.len();
    let mut copies = Vec::with_capacity(alloc, len)?;
    let (front, back) = items.slice(0, len);
    push_items(alloc, &mut copies, front, texts)?;
    push_items(alloc, &mut copies, back, texts)?;
    Ok(Items::from_vec(copies))
}

// Appends copies of some items.
fn push_items(
    alloc: Global,
    copies: &mut Vec<Item>,
    items: &[Item],
    texts: &mut Stack<Items<Par>>,
) -> Result<(), AllocError>
    ensures copied { OnOk result (copies.new.items ≡ copies.old.items ++ with_texts items.now texts.old) }
    ensures left { OnOk result (texts.new ≡ texts_after items.now texts.old) }
{
    for item in items {
        let copy = item_with(alloc, item, texts)?;
        copies.push(copy)?;
    }
    Ok(())
}

// A copy of an item.
fn item_with(alloc: Global, item: &Item, texts: &mut Stack<Items<Par>>) -> Result<Item, AllocError>
    ensures copied { IfOk result (λ copy. copy ≡ with_text item.now texts.old) }
    ensures left { OnOk result (texts.new ≡ texts_behind item.now texts.old) }
{
    let spans = item.spans.copy()?;
    let what = what_with(alloc, &item.what, texts)?;
    Ok(Item { spans, what })
}

// A copy of what an item is.
fn what_with(alloc: Global, what: &What, texts: &mut Stack<Items<Par>>) -> Result<What, AllocError>
    ensures copied { IfOk result (λ copy. copy ≡ what_with (out-What what.now) texts.old) }
    ensures left { OnOk result (texts.new ≡ texts_left (out-What what.now) texts.old) }
{
    match what {
        What::Note(note) => match texts.pop() {
            Some(pars) => note_with(alloc, note.get(), pars),
            None => copy_what(alloc, what),
        },
        _ => copy_what(alloc, what),
    }
}

// A copy of a note with these paragraphs.
fn note_with(alloc: Global, note: &Note, pars: Items<Par>) -> Result<What, AllocError>
    ensures { IfOk result (λ copy. copy ≡ what_with (What-F.Note note.now) (pars ∷ [])) }
{
    let id = note.id.copy()?;
    let copy = Note {
        id,
        class: note.class,
        pars,
    };
    Ok(What::Note(Boxed::new(alloc, copy)?))
}
