//! Which paragraphs the names lead to where sections are edited. These functions do nothing.

ghost use Rattle.std.specs.Prelude.{◌≡◌, ◌≢◌, ◌∷◌, ◌++◌, ℕ, Bool, true, false, List, [], Some, None};
ghost use Rattle.doc_model.specs.declared.document.Document.{Document};
ghost use Rattle.doc_model.specs.declared.edit.EditOp.TheVariants.{WrapSection, UnwrapSection, SetSection};
ghost use Rattle.doc_model.specs.declared.paragraph.Item.{Item};
ghost use Rattle.doc_model.specs.declared.paragraph.ParHead.{ParHead};
ghost use Rattle.edit_rules.specs.Edited.{Edited, edited_document};
ghost use Rattle.edit_rules.specs.Places.{is_in_note, are_in_order};
ghost use Rattle.name_index.specs.declared.names.NameKind.TheVariants as kinds;
ghost use Rattle.name_index.specs.Names.{found, Sets};
ghost use Rattle.name_index.specs.Scan.{names_of};
ghost use Rattle.node_array.specs.declared.row.Row.{Row};
ghost use Rattle.node_array.specs.declared.row.Row.TheVariants as row;
ghost use Rattle.node_array.specs.Rows.{rows_of};
ghost use Rattle.container_rows.specs.Standing.{IsApart};
ghost use Rattle.row_edits.specs.Sound.{IsSound};

/// Where blocks are wrapped, the section's name leads to the first paragraph, and all other names lead where they did.
pub fn wrapped_names_follow()
    ensures { (old : Edited) (before : List Row) (head : ParHead) (items : List Item) (rest inside : List Row) (other : ParHead) (others : List Item) (more : List Row) (name style : List ℕ)
        → IsApart old.document → is_in_note old.document head.id ≡ false → are_in_order old.document head.id other.id ≡ true
        → rows_of old.document.body ≡ before ++ row.Par head items ∷ rest → row.Par head items ∷ rest ≡ inside ++ row.Par other others ∷ more
        → IsSound old → name ≢ [] → found (names_of old.document) kinds.Section name ≡ None
        → Sets (names_of old.document) (names_of (edited_document old.next (WrapSection head.id other.id name style) old.document)) kinds.Section name (Some head.id) }
{}

/// Where a section is unwrapped, its name leads nowhere, and all other names lead where they did.
pub fn unwrapped_names_follow()
    ensures { (next : ℕ) (doc : Document) (name : List ℕ) → Sets (names_of doc) (names_of (edited_document next (UnwrapSection name) doc)) kinds.Section name None }
{}

/// Where a section is set, all names stay.
pub fn set_names_stay()
    ensures { (next : ℕ) (doc : Document) (name : List ℕ) (protected hidden : Bool) → names_of (edited_document next (SetSection name protected hidden) doc) ≡ names_of doc }
{}
