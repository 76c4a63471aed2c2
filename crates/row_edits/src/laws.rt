//! What holds of the rows of edited documents. These functions do nothing.

ghost use Rattle.std.specs.Prelude.{◌≡◌, ◌≢◌, ℕ, ◌+◌, ◌≤◌, false, List, [], ◌∷◌, ◌++◌, map, length, take, drop, slice_get, position, Option, Some, AllPairs};
ghost use Rattle.std.specs.List.{flat_map, splice, AllByRecursion as Each};
ghost use Rattle.doc_model.specs.declared.document.Document.{Document};
ghost use Rattle.doc_model.specs.declared.edit.EditOp.{EditOp};
ghost use Rattle.doc_model.specs.declared.edit.Pos.{Pos};
ghost use Rattle.doc_model.specs.declared.field.Field.{Field};
ghost use Rattle.doc_model.specs.declared.field.NoteClass.{NoteClass};
ghost use Rattle.doc_model.specs.declared.paragraph.Item.{Item};
ghost use Rattle.doc_model.specs.declared.paragraph.ListPos.{ListPos};
ghost use Rattle.doc_model.specs.declared.paragraph.ParHead.{ParHead};
ghost use Rattle.doc_model.specs.declared.paragraph.ParId.{ParId};
ghost use Rattle.doc_model.specs.Limits.{greatest};
ghost use Rattle.doc_model.specs.Parts.{notes};
ghost use Rattle.doc_model.specs.Reading.{number_of, paragraphs};
ghost use Rattle.doc_model.specs.Valid.{IsNote};
ghost use Rattle.edit_rules.specs.Edited.{Edited, edited, edited_document};
ghost use Rattle.edit_rules.specs.Texts.{with_item, without_range};
ghost use Rattle.node_array.specs.declared.row.Row.{Row};
ghost use Rattle.node_array.specs.Places.{is_par};
ghost use Rattle.node_array.specs.Rows.{rows_of};
ghost use Rattle.paragraph_rows.specs.Changes.{at_par};
ghost use Rattle.paragraph_rows.specs.Flat.{AreFlat};
ghost use Rattle.paragraph_rows.specs.NoteRows.{note_in_row, new_rows};
ghost use Rattle.paragraph_rows.specs.Standing.{number_in, AreApart, Stands};
ghost use Rattle.row_edits.specs.Sound.{AreSound, IsSound, is_note_open};
ghost use Rattle.row_edits.specs.Spliced.{rows_before, rows_between};

/// A change of the row of one paragraph is a splice of that row. With a note that is put in, the rows of the notes before its
/// place are put anew, and so they are where a range is taken out.
pub fn edits_are_splices()
    ensures row { (par : ParId) (rows : List Row) (at : ℕ) (one : Row) (later : Row → Row) → position (is_par par) rows ≡ Some at → slice_get rows at ≡ Some one
        → AreApart rows → map (at_par par later) rows ≡ splice rows at (at + 1) (later one ∷ []) }
    ensures note { (doc : Document) (par : ParId) (at : ℕ) (head : ParHead) (items : List Item) → position (is_par par) (rows_of doc.body) ≡ Some at
        → slice_get (rows_of doc.body) at ≡ Some (Row.Par head items) → AreApart (rows_of doc.body) → AreFlat (rows_of doc.body)
        → (next place : ℕ) (class : NoteClass) (id : List ℕ) (front : List Row) → par.0 ≢ next → front ≡ rows_before place items (drop (at + 1) (rows_of doc.body))
        → rows_of (edited_document next (EditOp.InsertNote par place class id) doc).body
        ≡ splice (rows_of doc.body) at (at + 1 + length front) (Row.Par head (with_item place (note_in_row class id) items) ∷ (front ++ new_rows next)) }
    ensures range { (doc : Document) (par : ParId) (at : ℕ) (head : ParHead) (items : List Item) → position (is_par par) (rows_of doc.body) ≡ Some at
        → slice_get (rows_of doc.body) at ≡ Some (Row.Par head items) → AreApart (rows_of doc.body) → AreFlat (rows_of doc.body)
        → (next from to : ℕ) (front gone : List Row) → from ≤ to → front ≡ rows_before from items (drop (at + 1) (rows_of doc.body))
        → gone ≡ rows_between from to items (drop (at + 1) (rows_of doc.body))
        → rows_of (edited_document next (EditOp.DeleteRange par from to) doc).body
        ≡ splice (rows_of doc.body) at (at + 1 + (length front + length gone)) (Row.Par head (without_range from to items) ∷ front) }
{}

/// The rows of a valid document are sound behind its greatest number.
pub fn valid_rows_are_sound()
    ensures { (doc : Document) → Each IsNote (notes doc) → AllPairs (λ left right. left ≢ right) (map number_of (paragraphs doc))
        → AreSound (greatest (flat_map number_in (rows_of doc.body)) + 1) (rows_of doc.body) }
{}

/// Edits that put no note in and take none out keep sound rows sound.
pub fn edits_keep_rows_sound()
    ensures style { (old : Edited) (par : ParId) (style : List ℕ) → IsSound old → IsSound (edited old (EditOp.SetParStyle par style)) }
    ensures level { (old : Edited) (par : ParId) (level : ℕ) → IsSound old → IsSound (edited old (EditOp.SetHeading par level)) }
    ensures list { (old : Edited) (par : ParId) (list : Option ListPos) → IsSound old → IsSound (edited old (EditOp.SetList par list)) }
    ensures text { (old : Edited) (par : ParId) (at : ℕ) (text : List ℕ) → IsSound old → IsSound (edited old (EditOp.InsertText par at text)) }
    ensures span { (old : Edited) (par : ParId) (from to : ℕ) (style : List ℕ) → from ≤ to → IsSound old → IsSound (edited old (EditOp.SetSpan par from to style)) }
    ensures field { (old : Edited) (par : ParId) (at : ℕ) (field : Field) → IsSound old → IsSound (edited old (EditOp.InsertField par at field)) }
    ensures bookmark { (old : Edited) (name : List ℕ) (from to : Pos) → IsSound old → IsSound (edited old (EditOp.AddBookmark name from to)) }
    ensures removal { (old : Edited) (name : List ℕ) → IsSound old → IsSound (edited old (EditOp.RemoveBookmark name)) }
{}

/// A note that is put in outside notes, and a range that is taken out, keep sound rows sound.
pub fn edits_of_notes_keep_rows_sound()
    ensures note { (old : Edited) (par : ParId) (before : List Row) (head : ParHead) (items : List Item) (behind : List Row)
        → Stands par (rows_of old.document.body) before (Row.Par head items) behind → is_note_open false before ≡ false
        → (at : ℕ) (class : NoteClass) (id : List ℕ) → IsSound old → IsSound (edited old (EditOp.InsertNote par at class id)) }
    ensures range { (old : Edited) (par : ParId) (before : List Row) (head : ParHead) (items : List Item) (behind : List Row)
        → Stands par (rows_of old.document.body) before (Row.Par head items) behind
        → (from to : ℕ) → from ≤ to → IsSound old → IsSound (edited old (EditOp.DeleteRange par from to)) }
{}
