//! The document that a group of edits makes.

ghost use Rattle.std.specs.Prelude.{◌≡◌, ℕ, IfOk, IfErr, Ok};
ghost use Rattle.std.specs.List.{AllByRecursion as Each};
ghost use Rattle.edit_model.specs.Edit.{edited_by_group};
ghost use Rattle.doc_model.specs.Plain.{IsPlain};
ghost use Rattle.edit_ops.specs.PlainOps.{IsPlainOp, IsFirstRefusal};

use crate::draft::Draft;
use crate::fault::EditFault;
use doc_model::{Document, Group, Limit, Refusal};
use std::alloc::Global;

const MOST_OPERATIONS: usize = 1024;

/// The document that the edits of a group make of a plain document, one after another, or the first one that is
/// refused. The document itself stays as it is. Inserts of printable ASCII characters and deletes are made.
///
/// A group of more than 1024 edits is refused before them, with the index 1024.
pub fn edited_by_group(alloc: Global, doc: &Document, group: &Group) -> Result<Document, EditFault>
    requires plain { IsPlain doc.now }
    requires plain_ops { Each IsPlainOp group.now.0 }
    ensures done { IfOk result (λ new. (next : ℕ) → edited_by_group (record { document = doc.now; next = next }) group.now.0 ≡ Ok (record { document = new; next = next })) }
    ensures plain { IfOk result IsPlain }
    ensures refused { IfErr result (IsFirstRefusal doc.now group.now.0) }
{
    let ops = group.0.get();
    if ops.len() > MOST_OPERATIONS {
        return Err(EditFault::Refused {
            index: MOST_OPERATIONS as u32,
            why: Refusal::Limit(Limit::Operations, MOST_OPERATIONS as u32),
        });
    }
    let mut draft = Draft::of(doc)?;
    'ops: for (index, op) in ops.iter().enumerate() {
        if let Some(why) = draft.refusal(op) {
            let index = index as u32;
            return Err(EditFault::Refused { index, why });
        }
        draft.make(alloc, op)?;
    }
    let Draft { document, .. } = draft;
    Ok(document)
}
