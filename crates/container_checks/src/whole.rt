//! Paragraphs that are all of their container.

ghost use Rattle.std.specs.Prelude.{◌≡◌, ◌≢◌, ◌==◌, ◌<◌, ◌&&◌, None, Some, length, position, true};
ghost use Rattle.doc_model.specs.declared.document.Document.{Document};
ghost use Rattle.doc_model.specs.declared.edit.EditOp.TheVariants as edits;
ghost use Rattle.container_facts.specs.Fronts.{begins_with, is_front};
ghost use Rattle.container_rows.specs.Standing.{IsApart};
ghost use Rattle.edit_rules.specs.Places.{container_of, held_from, live_paragraph};
ghost use Rattle.edit_rules.specs.Refusals.{last_paragraph, no_paragraph, not_together};
ghost use Rattle.node_array.specs.Places.{is_par};
ghost use Rattle.node_array.specs.Rows.{rows_of};
ghost use Rattle.paragraph_rows.specs.Flat.{AreFlat};
ghost use Rattle.paragraph_rows.specs.Standing.{AreApart};
ghost use Rattle.row_facts.specs.Around.{begins};

use doc_model::{EditOp, ParId, Refusal};
use level_walks::is_last_held;
use node_array::{NodeArray, Row};

/// The refusal of an edit that would leave a container without a paragraph, of one that names live paragraphs which stand
/// together as it wants it, in a document of these rows. It takes no memory.
pub fn last_paragraph(rows: &NodeArray, op: &EditOp) -> Option<Refusal>
    requires flat { AreFlat (rows_of rows.now) }
    requires apart { AreApart (rows_of rows.now) }
    ensures { (doc : Document) → doc.body ≡ rows.now → IsApart doc → no_paragraph doc op.now ≡ None → not_together doc op.now ≡ None → result ≡ last_paragraph doc op.now }
{
    match op {
        EditOp::MovePars { first, last, .. } => all_moved(rows, *first, *last),
        _ => None,
    }
}

// The refusal of a move of all paragraphs of a container.
fn all_moved(rows: &NodeArray, first: ParId, last: ParId) -> Option<Refusal>
    requires flat { AreFlat (rows_of rows.now) }
    requires apart { AreApart (rows_of rows.now) }
    ensures { (doc : Document) (after : ParId) → doc.body ≡ rows.now → IsApart doc → no_paragraph doc (edits.MovePars first last after) ≡ None → not_together doc (edits.MovePars first last after) ≡ None → result ≡ last_paragraph doc (edits.MovePars first last after) }
{
    if is_whole(rows, first, last) {
        Some(Refusal::LastPar(first))
    } else {
        None
    }
}

// Whether a live paragraph is the first of its container, and another the last of its own.
fn is_whole(rows: &NodeArray, first: ParId, last: ParId) -> bool
    requires flat { AreFlat (rows_of rows.now) }
    requires apart { AreApart (rows_of rows.now) }
    ensures { (doc : Document) → doc.body ≡ rows.now → IsApart doc → live_paragraph doc first ≢ None → live_paragraph doc last ≢ None → result ≡ (begins_with first.0 (container_of doc first) && length (held_from doc last) == 1) }
{
    is_front(rows, first) && is_last_held(rows, last)
}

// Whether a live paragraph is the first of its container.
fn is_front(rows: &NodeArray, par: ParId) -> bool
    requires flat { AreFlat (rows_of rows.now) }
    requires apart { AreApart (rows_of rows.now) }
    ensures { (doc : Document) → doc.body ≡ rows.now → IsApart doc → live_paragraph doc par ≢ None → result ≡ begins_with par.0 (container_of doc par) }
{
    match rows.row_of(par) {
        None => false,
        Some(at) => is_front_at(rows, par, at),
    }
}

// The same, told by the place of its row.
fn is_front_at(rows: &NodeArray, par: ParId, at: usize) -> bool
    requires apart { AreApart (rows_of rows.now) }
    requires found { position (is_par par) (rows_of rows.now) ≡ Some at }
    ensures { result ≡ is_front true par.0 (rows_of rows.now) }
{
    if at == 0 {
        return true;
    }
    begins(rows.row(at - 1))
}

// Whether a row begins a section or a note.
fn begins(row: &Row) -> bool
    ensures { result ≡ begins row.now }
{
    matches!(row, Row::Start(_) | Row::NoteText)
}
