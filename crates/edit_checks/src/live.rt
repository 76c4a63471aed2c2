//! Paragraphs that edits name.

ghost use Rattle.std.specs.Prelude.{◌≡◌, [], ◌∷◌, is_some};
ghost use Rattle.doc_model.specs.declared.document.Document.{Document};
ghost use Rattle.edit_checks.specs.Firsts.{first_absent};
ghost use Rattle.edit_rules.specs.Places.{live_paragraph};
ghost use Rattle.edit_rules.specs.Refusals.{no_paragraph};
ghost use Rattle.node_array.specs.Rows.{rows_of};
ghost use Rattle.paragraph_rows.specs.Flat.{AreFlat};

use doc_model::{EditOp, ParId, Refusal};
use node_array::NodeArray;

/// The refusal by the first paragraph that the edit names and that isn't live in a document of these rows. It takes no
/// memory.
pub fn no_paragraph(rows: &NodeArray, op: &EditOp) -> Option<Refusal>
    requires flat { AreFlat (rows_of rows.now) }
    ensures { (doc : Document) → doc.body ≡ rows.now → result ≡ no_paragraph doc op.now }
{
    match op {
        EditOp::InsertText { par, .. } => absent(rows, *par),
        EditOp::DeleteRange { par, .. } => absent(rows, *par),
        EditOp::Split { par, .. } => absent(rows, *par),
        EditOp::Join { par } => absent(rows, *par),
        EditOp::SetParStyle { par, .. } => absent(rows, *par),
        EditOp::SetSpan { par, .. } => absent(rows, *par),
        EditOp::SetHeading { par, .. } => absent(rows, *par),
        EditOp::SetList { par, .. } => absent(rows, *par),
        EditOp::InsertField { par, .. } => absent(rows, *par),
        EditOp::InsertNote { par, .. } => absent(rows, *par),
        EditOp::MovePars { first, last, after } => absent_of_three(rows, *first, *last, *after),
        EditOp::AddBookmark { from, to, .. } => absent_of_two(rows, from.par, to.par),
        EditOp::WrapSection { first, last, .. } => absent_of_two(rows, *first, *last),
        _ => None,
    }
}

/// Whether a paragraph is live in a document of these rows. It takes no memory.
pub fn is_live(rows: &NodeArray, par: ParId) -> bool
    requires flat { AreFlat (rows_of rows.now) }
    ensures { (doc : Document) → doc.body ≡ rows.now → result ≡ is_some (live_paragraph doc par) }
{
    match rows.row_of(par) {
        Some(_) => true,
        None => false,
    }
}

// The refusal of a paragraph that isn't live.
fn absent(rows: &NodeArray, par: ParId) -> Option<Refusal>
    requires flat { AreFlat (rows_of rows.now) }
    ensures { (doc : Document) → doc.body ≡ rows.now → result ≡ first_absent doc (par ∷ []) }
{
    if is_live(rows, par) {
        None
    } else {
        Some(Refusal::NoPar(par))
    }
}

// The refusal by the first of two paragraphs that isn't live.
fn absent_of_two(rows: &NodeArray, first: ParId, last: ParId) -> Option<Refusal>
    requires flat { AreFlat (rows_of rows.now) }
    ensures { (doc : Document) → doc.body ≡ rows.now → result ≡ first_absent doc (first ∷ last ∷ []) }
{
    if is_live(rows, first) {
        absent(rows, last)
    } else {
        Some(Refusal::NoPar(first))
    }
}

// The refusal by the first of three.
fn absent_of_three(rows: &NodeArray, first: ParId, last: ParId, after: ParId) -> Option<Refusal>
    requires flat { AreFlat (rows_of rows.now) }
    ensures { (doc : Document) → doc.body ≡ rows.now → result ≡ first_absent doc (first ∷ last ∷ after ∷ []) }
{
    if is_live(rows, first) {
        absent_of_two(rows, last, after)
    } else {
        Some(Refusal::NoPar(first))
    }
}
