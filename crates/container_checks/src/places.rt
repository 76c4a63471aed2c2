//! Paragraphs in one container or text.

ghost use Rattle.std.specs.Prelude.{◌≡◌, ◌≢◌, ◌&&◌, ◌||◌, not, None, true};
ghost use Rattle.doc_model.specs.declared.document.Document.{Document};
ghost use Rattle.container_rows.specs.Standing.{IsApart};
ghost use Rattle.edit_rules.specs.Places.{are_in_one_text, are_in_order, container_of, held_between, holds, is_in_note, live_paragraph};
ghost use Rattle.edit_rules.specs.Refusals.{is_bad_target};
ghost use Rattle.node_array.specs.Rows.{rows_of};
ghost use Rattle.paragraph_rows.specs.Flat.{AreFlat};
ghost use Rattle.paragraph_rows.specs.Standing.{AreApart};

use doc_model::ParId;
use level_walks::{are_in_order, is_in_note};
use node_array::NodeArray;

/// Whether two live paragraphs stand in one text: both in the body, or both in one note.
pub(crate) fn are_in_one_text(rows: &NodeArray, left: ParId, right: ParId) -> bool
    requires flat { AreFlat (rows_of rows.now) }
    requires apart { AreApart (rows_of rows.now) }
    ensures { (doc : Document) → doc.body ≡ rows.now → IsApart doc → live_paragraph doc left ≢ None → live_paragraph doc right ≢ None → result ≡ are_in_one_text doc left right }
{
    if is_in_note(rows, left) {
        is_in_note(rows, right) && are_in_one_container(rows, left, right)
    } else {
        !is_in_note(rows, right)
    }
}

/// Whether live paragraphs, from one to another in their container, can't be moved behind a third live one.
pub(crate) fn is_bad_target(rows: &NodeArray, first: ParId, last: ParId, after: ParId) -> bool
    requires flat { AreFlat (rows_of rows.now) }
    requires apart { AreApart (rows_of rows.now) }
    ensures { (doc : Document) → doc.body ≡ rows.now → IsApart doc → live_paragraph doc first ≢ None → live_paragraph doc after ≢ None → are_in_order doc first last ≡ true → result ≡ is_bad_target doc first last after }
{
    is_among(rows, first, last, after) || leaves_note(rows, first, after)
}

// Whether a third live paragraph is among those from one to another.
fn is_among(rows: &NodeArray, first: ParId, last: ParId, other: ParId) -> bool
    requires flat { AreFlat (rows_of rows.now) }
    requires apart { AreApart (rows_of rows.now) }
    ensures { (doc : Document) → doc.body ≡ rows.now → IsApart doc → live_paragraph doc first ≢ None → live_paragraph doc other ≢ None → are_in_order doc first last ≡ true → result ≡ holds other.0 (held_between doc first last) }
{
    are_in_order(rows, first, other) && are_in_order(rows, other, last)
}

// Whether a paragraph that is moved behind another would leave a note or enter one.
fn leaves_note(rows: &NodeArray, first: ParId, after: ParId) -> bool
    requires flat { AreFlat (rows_of rows.now) }
    requires apart { AreApart (rows_of rows.now) }
    ensures { (doc : Document) → doc.body ≡ rows.now → IsApart doc → live_paragraph doc first ≢ None → live_paragraph doc after ≢ None → result ≡ ((is_in_note doc after || is_in_note doc first) && not (holds after.0 (container_of doc first))) }
{
    if is_in_note(rows, after) || is_in_note(rows, first) {
        !are_in_one_container(rows, first, after)
    } else {
        false
    }
}

// Whether two live paragraphs stand in one container.
fn are_in_one_container(rows: &NodeArray, first: ParId, other: ParId) -> bool
    requires flat { AreFlat (rows_of rows.now) }
    requires apart { AreApart (rows_of rows.now) }
    ensures { (doc : Document) → doc.body ≡ rows.now → IsApart doc → live_paragraph doc first ≢ None → live_paragraph doc other ≢ None → result ≡ holds other.0 (container_of doc first) }
{
    are_in_order(rows, first, other) || are_in_order(rows, other, first)
}
