//! What rows tell of a paragraph. These functions do nothing.

ghost use Rattle.std.specs.Prelude.{◌≡◌, ℕ, false, List, [], ◌∷◌, length, find, slice_get, position, Option, Some, None, option_map};
ghost use Rattle.doc_model.specs.declared.document.Document.{Document};
ghost use Rattle.doc_model.specs.declared.edit.EditOp.{EditOp};
ghost use Rattle.doc_model.specs.declared.paragraph.Item.{Item};
ghost use Rattle.doc_model.specs.declared.paragraph.ParHead.{ParHead};
ghost use Rattle.doc_model.specs.declared.paragraph.ParId.{ParId};
ghost use Rattle.edit_rules.specs.Places.{live_paragraph, item_count, is_in_note};
ghost use Rattle.edit_rules.specs.Refusals.{guarded_paragraphs, protected};
ghost use Rattle.node_array.specs.declared.row.Row.{Row};
ghost use Rattle.node_array.specs.Containers.{containers_of};
ghost use Rattle.node_array.specs.Places.{is_par};
ghost use Rattle.node_array.specs.Rows.{rows_of};
ghost use Rattle.paragraph_rows.specs.Flat.{AreFlat};
ghost use Rattle.paragraph_rows.specs.OwnRow.{own_row};
ghost use Rattle.paragraph_rows.specs.Standing.{AreApart, Stands};
ghost use Rattle.row_edits.specs.Sound.{is_note_open};
ghost use Rattle.row_facts.specs.Around.{open_before, sections_open};
ghost use Rattle.row_checks.specs.Guarded.{protected_row};
ghost use Rattle.row_checks.specs.NoteHeld.{is_held_in_note, is_note};

/// A paragraph is live where its number has a row, and that row has as many items as it.
pub fn live_paragraphs_have_rows()
    ensures live { (doc : Document) (par : ParId) → AreFlat (rows_of doc.body) → option_map own_row (live_paragraph doc par) ≡ find (is_par par) (rows_of doc.body) }
    ensures absent { (doc : Document) (par : ParId) → AreFlat (rows_of doc.body) → position (is_par par) (rows_of doc.body) ≡ None → live_paragraph doc par ≡ None }
    ensures count { (doc : Document) (par : ParId) (at : ℕ) (head : ParHead) (items : List Item) → AreFlat (rows_of doc.body)
        → position (is_par par) (rows_of doc.body) ≡ Some at → slice_get (rows_of doc.body) at ≡ Some (Row.Par head items) → item_count doc par ≡ length items }
{}

/// A paragraph stands in a note where a note is open before its row, so where its row's container is one.
pub fn notes_are_open_round_rows()
    ensures held { (doc : Document) (par : ParId) → AreFlat (rows_of doc.body) → is_in_note doc par ≡ is_held_in_note par false (rows_of doc.body) }
    ensures round { (doc : Document) (par : ParId) (before : List Row) (one : Row) (behind : List Row) → AreFlat (rows_of doc.body)
        → Stands par (rows_of doc.body) before one behind → is_in_note doc par ≡ is_note_open false before }
    ensures container { (doc : Document) (par : ParId) (at : ℕ) (one : Row) (container : Option ℕ) → AreFlat (rows_of doc.body) → AreApart (rows_of doc.body)
        → position (is_par par) (rows_of doc.body) ≡ Some at → slice_get (rows_of doc.body) at ≡ Some one → slice_get (containers_of doc.body) at ≡ Some container
        → is_in_note doc par ≡ is_note (rows_of doc.body) container }
{}

/// The sections round a paragraph are those that are open before its row, and its operation is refused by the innermost
/// protected one.
pub fn protecting_sections_are_open()
    ensures { (doc : Document) (op : EditOp) (par : ParId) (at : ℕ) (one : Row) → AreFlat (rows_of doc.body) → AreApart (rows_of doc.body)
        → position (is_par par) (rows_of doc.body) ≡ Some at → slice_get (rows_of doc.body) at ≡ Some one → guarded_paragraphs doc op ≡ par.0 ∷ []
        → protected doc op ≡ protected_row (sections_open (open_before at (rows_of doc.body))) }
{}
