//! Paragraphs that don't stand together.

ghost use Rattle.std.specs.Prelude.{◌≡◌, ◌∷◌, [], ◌||◌, not, true, None};
ghost use Rattle.doc_model.specs.declared.document.Document.{Document};
ghost use Rattle.doc_model.specs.declared.edit.EditOp.TheVariants as edits;
ghost use Rattle.doc_model.specs.declared.refusal.Refusal.TheVariants.{NotTogether};
ghost use Rattle.container_rows.specs.Standing.{IsApart};
ghost use Rattle.edit_checks.specs.Firsts.{first_absent};
ghost use Rattle.edit_rules.specs.Places.{are_in_one_text, are_in_order, is_in_note};
ghost use Rattle.edit_rules.specs.Refusals.{are_paragraphs_in_order, no_paragraph, not_together, refused_if};
ghost use Rattle.node_array.specs.Rows.{rows_of};
ghost use Rattle.paragraph_rows.specs.Flat.{AreFlat};
ghost use Rattle.paragraph_rows.specs.Standing.{AreApart};

use crate::places::{are_in_one_text, is_bad_target};
use doc_model::{EditOp, ParId, Refusal};
use level_walks::{are_in_order, are_paragraphs_in_order, is_followed, is_in_note};
use node_array::NodeArray;

/// The refusal by two paragraphs that don't stand together as the edit wants it, of an edit that names live paragraphs, in a
/// document of these rows. It goes over the rows between the paragraphs, and takes no memory.
pub fn not_together(rows: &NodeArray, op: &EditOp) -> Option<Refusal>
    requires flat { AreFlat (rows_of rows.now) }
    requires apart { AreApart (rows_of rows.now) }
    ensures { (doc : Document) → doc.body ≡ rows.now → IsApart doc → no_paragraph doc op.now ≡ None → result ≡ not_together doc op.now }
{
    match op {
        EditOp::Join { par } => not_followed(rows, *par),
        EditOp::MovePars { first, last, after } => not_movable(rows, *first, *last, *after),
        EditOp::InsertNote { par, .. } => in_note(rows, *par),
        EditOp::AddBookmark { from, to, .. } => in_two_texts(rows, from.par, to.par),
        EditOp::WrapSection { first, last, .. } => not_in_order(rows, *first, *last),
        _ => None,
    }
}

// The refusal of a paragraph behind which there is none that it can be joined with.
fn not_followed(rows: &NodeArray, par: ParId) -> Option<Refusal>
    requires flat { AreFlat (rows_of rows.now) }
    requires apart { AreApart (rows_of rows.now) }
    ensures { (doc : Document) → doc.body ≡ rows.now → IsApart doc → no_paragraph doc (edits.Join par) ≡ None → result ≡ not_together doc (edits.Join par) }
{
    if is_followed(rows, par) {
        None
    } else {
        Some(Refusal::NotTogether(par, ParId(0)))
    }
}

// The refusal of paragraphs that don't stand together, or can't be moved behind another.
fn not_movable(rows: &NodeArray, first: ParId, last: ParId, after: ParId) -> Option<Refusal>
    requires flat { AreFlat (rows_of rows.now) }
    requires apart { AreApart (rows_of rows.now) }
    ensures { (doc : Document) → doc.body ≡ rows.now → IsApart doc → no_paragraph doc (edits.MovePars first last after) ≡ None → result ≡ not_together doc (edits.MovePars first last after) }
{
    if are_paragraphs_in_order(rows, first, last) {
        not_behind(rows, first, last, after)
    } else {
        Some(Refusal::NotTogether(first, last))
    }
}

// The refusal of paragraphs that stand together and can't be moved behind another.
fn not_behind(rows: &NodeArray, first: ParId, last: ParId, after: ParId) -> Option<Refusal>
    requires flat { AreFlat (rows_of rows.now) }
    requires apart { AreApart (rows_of rows.now) }
    ensures { (doc : Document) → doc.body ≡ rows.now → IsApart doc → no_paragraph doc (edits.MovePars first last after) ≡ None → are_paragraphs_in_order doc first last ≡ true → result ≡ not_together doc (edits.MovePars first last after) }
{
    if is_bad_target(rows, first, last, after) {
        Some(Refusal::NotTogether(first, after))
    } else {
        None
    }
}

// The refusal of a paragraph that stands in a note.
fn in_note(rows: &NodeArray, par: ParId) -> Option<Refusal>
    requires flat { AreFlat (rows_of rows.now) }
    requires apart { AreApart (rows_of rows.now) }
    ensures { (doc : Document) → doc.body ≡ rows.now → first_absent doc (par ∷ []) ≡ None → result ≡ refused_if (is_in_note doc par) (NotTogether par par) }
{
    if is_in_note(rows, par) {
        Some(Refusal::NotTogether(par, par))
    } else {
        None
    }
}

// The refusal of two paragraphs of different texts.
fn in_two_texts(rows: &NodeArray, left: ParId, right: ParId) -> Option<Refusal>
    requires flat { AreFlat (rows_of rows.now) }
    requires apart { AreApart (rows_of rows.now) }
    ensures { (doc : Document) → doc.body ≡ rows.now → IsApart doc → first_absent doc (left ∷ right ∷ []) ≡ None → result ≡ refused_if (not (are_in_one_text doc left right)) (NotTogether left right) }
{
    if are_in_one_text(rows, left, right) {
        None
    } else {
        Some(Refusal::NotTogether(left, right))
    }
}

// The refusal of two paragraphs that stand in no container in this order, or in a note.
fn not_in_order(rows: &NodeArray, first: ParId, last: ParId) -> Option<Refusal>
    requires flat { AreFlat (rows_of rows.now) }
    requires apart { AreApart (rows_of rows.now) }
    ensures { (doc : Document) → doc.body ≡ rows.now → IsApart doc → first_absent doc (first ∷ last ∷ []) ≡ None → result ≡ refused_if (not (are_in_order doc first last) || is_in_note doc first) (NotTogether first last) }
{
    if are_in_order(rows, first, last) && !is_in_note(rows, first) {
        None
    } else {
        Some(Refusal::NotTogether(first, last))
    }
}
