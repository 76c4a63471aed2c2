//! Which paragraphs the names lead to where items are put in and taken out. These functions do nothing.

ghost use Rattle.std.specs.Prelude.{◌≡◌, ◌≢◌, ℕ, false, List, [], Some, None};
ghost use Rattle.doc_model.specs.declared.edit.EditOp.TheVariants.{InsertField, InsertNote, RemoveBookmark};
ghost use Rattle.doc_model.specs.declared.field.Field.TheVariants as fields;
ghost use Rattle.doc_model.specs.declared.field.Format.{Format};
ghost use Rattle.doc_model.specs.declared.field.NoteClass.{NoteClass};
ghost use Rattle.doc_model.specs.declared.paragraph.Item.{Item};
ghost use Rattle.doc_model.specs.declared.paragraph.ParHead.{ParHead};
ghost use Rattle.doc_model.specs.declared.paragraph.ParId.{ParId};
ghost use Rattle.edit_rules.specs.Edited.{Edited, edited_document};
ghost use Rattle.name_index.specs.declared.names.NameKind.TheVariants as kinds;
ghost use Rattle.name_index.specs.Names.{found, Agree, Sets};
ghost use Rattle.name_index.specs.Scan.{names_of};
ghost use Rattle.node_array.specs.declared.row.Row.{Row};
ghost use Rattle.node_array.specs.declared.row.Row.TheVariants as row;
ghost use Rattle.node_array.specs.Rows.{rows_of};
ghost use Rattle.paragraph_rows.specs.Standing.{Stands};
ghost use Rattle.row_edits.specs.Sound.{IsSound, is_note_open};

/// A sequence field's reference name, and a note's id, lead to the paragraph where the field or note is put in, and all other
/// names lead where they did. One without a name leaves all names.
pub fn new_names_are_added()
    ensures field { (old : Edited) (par : ParId) (before : List Row) (head : ParHead) (items : List Item) (behind : List Row)
        → Stands par (rows_of old.document.body) before (row.Par head items) behind → IsSound old
        → (at : ℕ) (name refname : List ℕ) (format : Format) → refname ≢ [] → found (names_of old.document) kinds.Reference refname ≡ None
        → Sets (names_of old.document) (names_of (edited_document old.next (InsertField par at (fields.Sequence name refname format)) old.document)) kinds.Reference refname (Some par) }
    ensures unnamed_field { (old : Edited) (par : ParId) (before : List Row) (head : ParHead) (items : List Item) (behind : List Row)
        → Stands par (rows_of old.document.body) before (row.Par head items) behind → IsSound old
        → (at : ℕ) (name : List ℕ) (format : Format) → Agree (names_of old.document) (names_of (edited_document old.next (InsertField par at (fields.Sequence name [] format)) old.document)) }
    ensures note { (old : Edited) (par : ParId) (before : List Row) (head : ParHead) (items : List Item) (behind : List Row)
        → Stands par (rows_of old.document.body) before (row.Par head items) behind → is_note_open false before ≡ false → IsSound old
        → (at : ℕ) (class : NoteClass) (id : List ℕ) → id ≢ [] → found (names_of old.document) kinds.Note id ≡ None
        → Sets (names_of old.document) (names_of (edited_document old.next (InsertNote par at class id) old.document)) kinds.Note id (Some par) }
    ensures unnamed_note { (old : Edited) (par : ParId) (before : List Row) (head : ParHead) (items : List Item) (behind : List Row)
        → Stands par (rows_of old.document.body) before (row.Par head items) behind → is_note_open false before ≡ false → IsSound old
        → (at : ℕ) (class : NoteClass) → Agree (names_of old.document) (names_of (edited_document old.next (InsertNote par at class []) old.document)) }
{}

/// Where a bookmark is removed, its name leads nowhere, and all other names lead where they did.
pub fn removed_names_are_dropped()
    ensures { (old : Edited) (name : List ℕ) → IsSound old → Sets (names_of old.document) (names_of (edited_document old.next (RemoveBookmark name) old.document)) kinds.Bookmark name None }
{}
