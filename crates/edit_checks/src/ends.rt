//! Places behind the end of their paragraph.

ghost use Rattle.std.specs.Prelude.{◌≡◌, [], ◌∷◌, length};
ghost use Rattle.doc_model.specs.declared.document.Document.{Document};
ghost use Rattle.edit_checks.specs.Firsts.{first_past_end, items_in};
ghost use Rattle.edit_rules.specs.Places.{item_count};
ghost use Rattle.edit_rules.specs.Refusals.{past_end};
ghost use Rattle.node_array.specs.Rows.{rows_of};
ghost use Rattle.paragraph_rows.specs.Flat.{AreFlat};

use doc_model::{EditOp, ParId, Refusal};
use node_array::{NodeArray, Row};

/// The refusal by the first place of the edit that is above its paragraph's item count, in a document of these rows. It
/// takes no memory.
pub fn past_end(rows: &NodeArray, op: &EditOp) -> Option<Refusal>
    requires flat { AreFlat (rows_of rows.now) }
    ensures { (doc : Document) → doc.body ≡ rows.now → result ≡ past_end doc op.now }
{
    match op {
        EditOp::InsertText { par, at, .. } => place_past_end(rows, *par, *at),
        EditOp::DeleteRange { par, from, to } => range_past_end(rows, *par, *from, *par, *to),
        EditOp::Split { par, at } => place_past_end(rows, *par, *at),
        EditOp::SetSpan { par, from, to, .. } => range_past_end(rows, *par, *from, *par, *to),
        EditOp::InsertField { par, at, .. } => place_past_end(rows, *par, *at),
        EditOp::InsertNote { par, at, .. } => place_past_end(rows, *par, *at),
        EditOp::AddBookmark { from, to, .. } => {
            range_past_end(rows, from.par, from.at, to.par, to.at)
        }
        _ => None,
    }
}

/// How many items a paragraph has in a document of these rows, 0 where it isn't live. It takes no memory.
pub fn item_count(rows: &NodeArray, par: ParId) -> usize
    requires flat { AreFlat (rows_of rows.now) }
    ensures { (doc : Document) → doc.body ≡ rows.now → result ≡ item_count doc par }
{
    match rows.row_of(par) {
        None => 0,
        Some(at) => row_length(rows.row(at)),
    }
}

// How many items a row has, 0 where it is no paragraph's.
fn row_length(row: &Row) -> usize
    ensures { result ≡ length (items_in row.now) }
{
    match row {
        Row::Par(_, items) => items.len(),
        _ => 0,
    }
}

// The refusal by a place that is above its paragraph's item count.
fn place_past_end(rows: &NodeArray, par: ParId, at: u32) -> Option<Refusal>
    requires flat { AreFlat (rows_of rows.now) }
    ensures { (doc : Document) → doc.body ≡ rows.now → result ≡ first_past_end doc ((par, at) ∷ []) }
{
    let count = item_count(rows, par);
    if count < at as usize {
        Some(Refusal::PastEnd(par, count as u32))
    } else {
        None
    }
}

// The refusal by the first of two places that is above its paragraph's item count.
fn range_past_end(
    rows: &NodeArray,
    first: ParId,
    from: u32,
    last: ParId,
    to: u32,
) -> Option<Refusal>
    requires flat { AreFlat (rows_of rows.now) }
    ensures { (doc : Document) → doc.body ≡ rows.now → result ≡ first_past_end doc ((first, from) ∷ (last, to) ∷ []) }
{
    let count = item_count(rows, first);
    if count < from as usize {
        Some(Refusal::PastEnd(first, count as u32))
    } else {
        place_past_end(rows, last, to)
    }
}
