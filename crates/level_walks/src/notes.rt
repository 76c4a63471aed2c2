//! Paragraphs in notes.

ghost use Rattle.std.specs.Prelude.{◌≡◌, ◌≢◌, ◌<◌, None, length, IfSome};
ghost use Rattle.doc_model.specs.declared.document.Document.{Document};
ghost use Rattle.edit_rules.specs.Places.{is_in_note, live_paragraph};
ghost use Rattle.node_array.specs.Rows.{rows_of};
ghost use Rattle.paragraph_rows.specs.Flat.{AreFlat};
ghost use Rattle.paragraph_rows.specs.Standing.{AreApart};
ghost use Rattle.row_checks.specs.NoteHeld.{begins_note, is_note};

use doc_model::ParId;
use node_array::{NodeArray, Row};

/// Whether a live paragraph stands in a note, in a document of these rows. It takes no memory.
pub fn is_in_note(rows: &NodeArray, par: ParId) -> bool
    requires flat { AreFlat (rows_of rows.now) }
    requires apart { AreApart (rows_of rows.now) }
    ensures { (doc : Document) → doc.body ≡ rows.now → live_paragraph doc par ≢ None → result ≡ is_in_note doc par }
{
    match rows.row_of(par) {
        None => false,
        Some(at) => is_note(rows, rows.container(at)),
    }
}

// Whether a container, told by the place of the row that begins it, is a note.
fn is_note(rows: &NodeArray, container: Option<usize>) -> bool
    requires in_range { IfSome container (λ place. place < length (rows_of rows.now)) }
    ensures { result ≡ is_note (rows_of rows.now) container }
{
    match container {
        None => false,
        Some(place) => begins_note(rows.row(place)),
    }
}

// Whether a row begins a note.
fn begins_note(row: &Row) -> bool
    ensures { result ≡ begins_note row.now }
{
    matches!(row, Row::NoteText)
}
