//! What holds of the rows of edited documents in which no note holds a note. These functions do nothing.

ghost use Rattle.std.specs.Prelude.{◌≡◌, ◌≢◌, ℕ, ◌+◌, ◌≤◌, List, ◌∷◌, ◌++◌, map, take, drop, slice_get, position, Option, Some, AllPairs};
ghost use Rattle.std.specs.List.{flat_map, AllByRecursion as Each};
ghost use Rattle.doc_model.specs.declared.document.Document.{Document};
ghost use Rattle.doc_model.specs.declared.edit.EditOp.{EditOp};
ghost use Rattle.doc_model.specs.declared.edit.Pos.{Pos};
ghost use Rattle.doc_model.specs.declared.field.Field.{Field};
ghost use Rattle.doc_model.specs.declared.field.NoteClass.{NoteClass};
ghost use Rattle.doc_model.specs.declared.paragraph.Item.{Item};
ghost use Rattle.doc_model.specs.declared.paragraph.ListPos.{ListPos};
ghost use Rattle.doc_model.specs.declared.paragraph.Par.{Par, out-Par};
ghost use Rattle.doc_model.specs.declared.paragraph.ParHead.{ParHead};
ghost use Rattle.doc_model.specs.declared.paragraph.ParId.{ParId};
ghost use Rattle.doc_model.specs.declared.paragraph.What.TheOpen.{What-F};
ghost use Rattle.doc_model.specs.Alike.{in_document};
ghost use Rattle.doc_model.specs.Reading.{note_of, number_of, paragraphs};
ghost use Rattle.doc_model.specs.Parts.{notes};
ghost use Rattle.doc_model.specs.Valid.{IsNote};
ghost use Rattle.edit_rules.specs.Edited.{edited_document};
ghost use Rattle.edit_rules.specs.Texts.{with_paragraph, with_items, with_text, with_item, with_spans, spans_of, without_marks};
ghost use Rattle.node_array.specs.declared.row.Row.{Row};
ghost use Rattle.node_array.specs.Places.{is_par};
ghost use Rattle.node_array.specs.Rows.{rows_of};
ghost use Rattle.paragraph_rows.specs.OwnRow.{bare, head_of};
ghost use Rattle.paragraph_rows.specs.Changes.{in_head, in_items, at_par, rows_with_bookmark, Follows};
ghost use Rattle.paragraph_rows.specs.Flat.{AreFlat};
ghost use Rattle.paragraph_rows.specs.Standing.{number_in, AreApart, Stands};
ghost use Rattle.paragraph_rows.specs.Located.{Located};
ghost use Rattle.paragraph_rows.specs.NoteRows.{through_notes, behind_notes, with_note, with_range_gone};

/// A change of paragraphs that leaves their notes is a change of each row. One of heads changes heads, and one of items
/// changes the items as they stand in rows.
pub fn changes_of_paragraphs_are_changes_of_rows()
    ensures all { (doc : Document) (change : Par → Par) (later : Row → Row) → Follows change later → AreFlat (rows_of doc.body)
        → rows_of (in_document change doc).body ≡ map later (rows_of doc.body) }
    ensures head { (doc : Document) (par : ParId) (change : Par → Par) (head : ParHead → ParHead) → ((old : Par) → head_of (change old) ≡ head (head_of old))
        → ((old : Par) → (out-Par (change old)).items ≡ (out-Par old).items) → AreFlat (rows_of doc.body)
        → rows_of (with_paragraph par.0 change doc).body ≡ map (at_par par (in_head head)) (rows_of doc.body) }
    ensures items { (doc : Document) (par : ParId) (change later : List Item → List Item) → ((items : List Item) → map bare (change items) ≡ later (map bare items))
        → ((items : List Item) → flat_map note_of (change items) ≡ flat_map note_of items) → AreFlat (rows_of doc.body)
        → rows_of (with_items par.0 change doc).body ≡ map (at_par par (in_items later)) (rows_of doc.body) }
{}

/// The style, the heading level and the list place of a paragraph are set in its row.
pub fn edits_of_heads_change_heads()
    ensures style { (next : ℕ) (doc : Document) (par : ParId) (style : List ℕ) → AreFlat (rows_of doc.body)
        → rows_of (edited_document next (EditOp.SetParStyle par style) doc).body ≡ map (at_par par (in_head (λ head. record head { style = style }))) (rows_of doc.body) }
    ensures level { (next : ℕ) (doc : Document) (par : ParId) (level : ℕ) → AreFlat (rows_of doc.body)
        → rows_of (edited_document next (EditOp.SetHeading par level) doc).body ≡ map (at_par par (in_head (λ head. record head { level = level }))) (rows_of doc.body) }
    ensures list { (next : ℕ) (doc : Document) (par : ParId) (list : Option ListPos) → AreFlat (rows_of doc.body)
        → rows_of (edited_document next (EditOp.SetList par list) doc).body ≡ map (at_par par (in_head (λ head. record head { list = list }))) (rows_of doc.body) }
{}

/// Text, fields and marks are put among the items of the row as they are put among those of the paragraph, and so are spans
/// set and marks taken out.
pub fn edits_of_items_change_items()
    ensures text { (next : ℕ) (doc : Document) (par : ParId) (at : ℕ) (text : List ℕ) → AreFlat (rows_of doc.body)
        → rows_of (edited_document next (EditOp.InsertText par at text) doc).body ≡ map (at_par par (in_items (with_text at text))) (rows_of doc.body) }
    ensures span { (next : ℕ) (doc : Document) (par : ParId) (from to : ℕ) (style : List ℕ) → from ≤ to → AreFlat (rows_of doc.body)
        → rows_of (edited_document next (EditOp.SetSpan par from to style) doc).body ≡ map (at_par par (in_items (with_spans from to (spans_of style)))) (rows_of doc.body) }
    ensures field { (next : ℕ) (doc : Document) (par : ParId) (at : ℕ) (field : Field) → AreFlat (rows_of doc.body)
        → rows_of (edited_document next (EditOp.InsertField par at field) doc).body ≡ map (at_par par (in_items (with_item at (What-F.Field field)))) (rows_of doc.body) }
    ensures bookmark { (next : ℕ) (doc : Document) (name : List ℕ) (from to : Pos) → AreFlat (rows_of doc.body)
        → rows_of (edited_document next (EditOp.AddBookmark name from to) doc).body ≡ rows_with_bookmark name from to (rows_of doc.body) }
    ensures removal { (next : ℕ) (doc : Document) (name : List ℕ) → AreFlat (rows_of doc.body)
        → rows_of (edited_document next (EditOp.RemoveBookmark name) doc).body ≡ map (in_items (without_marks name)) (rows_of doc.body) }
{}

/// Changes of heads and of items leave no note in a note.
pub fn changes_leave_rows_flat()
    ensures head { (par : ParId) (change : ParHead → ParHead) (rows : List Row) → AreFlat rows → AreFlat (map (at_par par (in_head change)) rows) }
    ensures items { (par : ParId) (change : List Item → List Item) (rows : List Row) → AreFlat rows → AreFlat (map (at_par par (in_items change)) rows) }
{}

/// Where no two paragraphs have one number, a change of the row of one is a splice of one row.
pub fn one_row_is_spliced()
    ensures found { (par : ParId) (rows : List Row) (at : ℕ) (one : Row) → position (is_par par) rows ≡ Some at → slice_get rows at ≡ Some one → AreApart rows
        → Stands par rows (take at rows) one (drop (at + 1) rows) }
    ensures changed { (par : ParId) (later : Row → Row) (rows before : List Row) (one : Row) (behind : List Row) → Stands par rows before one behind
        → map (at_par par later) rows ≡ before ++ later one ∷ behind }
{}

/// The paragraph that a row is that of, with its notes behind it, and what any change of it comes to.
pub fn changed_paragraphs_take_their_place()
    ensures { (par : ParId) (doc : Document) (before : List Row) (one : Row) (behind : List Row) → Stands par (rows_of doc.body) before one behind
        → AreFlat (rows_of doc.body) → Located par doc before one behind }
{}

/// A note that is put in has its rows behind those of the notes before its place. Where a range is taken out, the rows of
/// its notes go with it.
pub fn edits_of_notes_change_note_rows()
    ensures note { (doc : Document) (par : ParId) (before : List Row) (head : ParHead) (items : List Item) (behind : List Row)
        → Stands par (rows_of doc.body) before (Row.Par head items) behind → AreFlat (rows_of doc.body)
        → (next at : ℕ) (class : NoteClass) (id : List ℕ) → par.0 ≢ next
        → rows_of (edited_document next (EditOp.InsertNote par at class id) doc).body ≡ before ++ with_note at class id next head items behind }
    ensures range { (doc : Document) (par : ParId) (before : List Row) (head : ParHead) (items : List Item) (behind : List Row)
        → Stands par (rows_of doc.body) before (Row.Par head items) behind → AreFlat (rows_of doc.body)
        → (next from to : ℕ) → from ≤ to
        → rows_of (edited_document next (EditOp.DeleteRange par from to) doc).body ≡ before ++ with_range_gone from to head items behind }
    ensures parts { (count : ℕ) (rows : List Row) → through_notes count rows ++ behind_notes count rows ≡ rows }
{}

/// In a valid document no note holds a note, and the numbers of rows are those of paragraphs in reading order.
pub fn valid_documents_have_flat_rows()
    ensures flat { (doc : Document) → Each IsNote (notes doc) → AreFlat (rows_of doc.body) }
    ensures numbers { (doc : Document) → AreFlat (rows_of doc.body) → flat_map number_in (rows_of doc.body) ≡ map number_of (paragraphs doc) }
    ensures apart { (doc : Document) → AreFlat (rows_of doc.body) → AllPairs (λ left right. left ≢ right) (map number_of (paragraphs doc))
        → AreApart (rows_of doc.body) }
{}
