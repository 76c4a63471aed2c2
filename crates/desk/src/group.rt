//! What a group of edits touches.

ghost use Rattle.std.specs.Prelude.{◌≡◌, ◌++◌, IfOk, OnOk};
ghost use Rattle.std.specs.List.{list_any};
ghost use Rattle.edit_model.specs.Edit.{Edited, touched as touches, touched_by, is_restyling};

use doc_model::{EditOp, Group, List};
use std::alloc::{AllocError, Global};

/// The numbers of the paragraphs that the edits touch, in whatever document they are made.
pub(crate) fn touched_by(alloc: Global, group: &Group) -> Result<List<u32>, AllocError>
    ensures { IfOk result (λ touched. (old : Edited) → touched ≡ touched_by old group.now.0) }
{
    let mut touched = List::new(alloc);
    for op in group.0.get() {
        push_touched(&mut touched, op)?;
    }
    Ok(touched)
}

// Adds the numbers of the paragraphs that an edit touches.
fn push_touched(touched: &mut List<u32>, op: &EditOp) -> Result<(), AllocError>
    ensures { OnOk result ((old : Edited) → touched.new ≡ touched.old ++ touches old op.now) }
{
    match op {
        EditOp::InsertText { par, .. } => touched.push(par.0),
        EditOp::DeleteRange { par, .. } => touched.push(par.0),
        _ => Ok(()),
    }
}

/// Whether one of the edits changes styles.
pub(crate) fn restyles(group: &Group) -> bool
    ensures { result ≡ list_any is_restyling group.now.0 }
{
    group.0.get().iter().any(is_restyling)
}

fn is_restyling(op: &EditOp) -> bool
    ensures { result ≡ is_restyling op.now }
{
    match op {
        EditOp::DefineStyle { .. } => true,
        EditOp::RemoveStyle { .. } => true,
        EditOp::SetParent { .. } => true,
        EditOp::SetProp { .. } => true,
        _ => false,
    }
}
