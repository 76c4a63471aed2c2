//! Paragraphs in the order of their container.

ghost use Rattle.std.specs.Prelude.{◌≡◌, ◌≢◌, ◌==◌, ℕ, Some, None, drop, length, position};
ghost use Rattle.doc_model.specs.declared.document.Document.{Document};
ghost use Rattle.container_rows.specs.Standing.{IsApart};
ghost use Rattle.edit_rules.specs.Places.{are_in_order, held_from, live_paragraph};
ghost use Rattle.edit_rules.specs.Refusals.{are_paragraphs_in_order, begins_with_two};
ghost use Rattle.level_rows.specs.Level.{held_in};
ghost use Rattle.level_walks.specs.Walks.{comes_to};
ghost use Rattle.node_array.specs.Places.{is_par};
ghost use Rattle.node_array.specs.Rows.{rows_of};
ghost use Rattle.paragraph_rows.specs.Flat.{AreFlat};
ghost use Rattle.paragraph_rows.specs.Standing.{AreApart};

use crate::walks::{begins_with_one, is_nothing, stays};
use doc_model::ParId;
use node_array::NodeArray;

/// Whether two paragraphs, of which the first is live, stand in one container, the first not behind the last, in a document
/// of these rows. It goes over the rows between them, and takes no memory.
pub fn are_in_order(rows: &NodeArray, first: ParId, last: ParId) -> bool
    requires flat { AreFlat (rows_of rows.now) }
    requires apart { AreApart (rows_of rows.now) }
    ensures { (doc : Document) → doc.body ≡ rows.now → IsApart doc → live_paragraph doc first ≢ None → result ≡ are_in_order doc first last }
{
    comes_to(rows, true, first, last)
}

/// The same where they and all between them are paragraphs.
pub fn are_paragraphs_in_order(rows: &NodeArray, first: ParId, last: ParId) -> bool
    requires flat { AreFlat (rows_of rows.now) }
    requires apart { AreApart (rows_of rows.now) }
    ensures { (doc : Document) → doc.body ≡ rows.now → IsApart doc → live_paragraph doc first ≢ None → result ≡ are_paragraphs_in_order doc first last }
{
    comes_to(rows, false, first, last)
}

/// Whether what stands behind a live paragraph in its container is a paragraph, in a document of these rows. It goes over the
/// rows of its notes, and takes no memory.
pub fn is_followed(rows: &NodeArray, par: ParId) -> bool
    requires flat { AreFlat (rows_of rows.now) }
    requires apart { AreApart (rows_of rows.now) }
    ensures { (doc : Document) → doc.body ≡ rows.now → IsApart doc → live_paragraph doc par ≢ None → result ≡ begins_with_two (held_from doc par) }
{
    match rows.row_of(par) {
        None => false,
        Some(at) => begins_with_one(rows, at),
    }
}

/// Whether nothing stands behind a live paragraph in its container, in a document of these rows.
pub fn is_last_held(rows: &NodeArray, par: ParId) -> bool
    requires flat { AreFlat (rows_of rows.now) }
    requires apart { AreApart (rows_of rows.now) }
    ensures { (doc : Document) → doc.body ≡ rows.now → IsApart doc → live_paragraph doc par ≢ None → result ≡ (length (held_from doc par) == 1) }
{
    match rows.row_of(par) {
        None => false,
        Some(at) => is_nothing(rows, at),
    }
}

// Whether the container of the first paragraph comes from it to the last, past sections or past paragraphs alone.
fn comes_to(rows: &NodeArray, sections: bool, first: ParId, last: ParId) -> bool
    requires apart { AreApart (rows_of rows.now) }
    ensures { (from : ℕ) → position (is_par first) (rows_of rows.now) ≡ Some from → result ≡ comes_to sections last.0 (held_in 0 (drop from (rows_of rows.now))) }
{
    match rows.row_of(first) {
        None => false,
        Some(from) => comes_from(rows, sections, from, last),
    }
}

// The same from the place of the first one's row.
fn comes_from(rows: &NodeArray, sections: bool, from: usize, last: ParId) -> bool
    requires apart { AreApart (rows_of rows.now) }
    ensures { result ≡ comes_to sections last.0 (held_in 0 (drop from (rows_of rows.now))) }
{
    match rows.row_of(last) {
        None => false,
        Some(to) => {
            if to < from {
                false
            } else {
                stays(rows, sections, from, to)
            }
        }
    }
}
