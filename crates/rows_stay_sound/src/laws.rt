//! What edits of containers keep of rows. These functions do nothing.

ghost use Rattle.std.specs.Prelude.{◌≡◌, ◌∷◌, ◌++◌, ℕ, Bool, true, false, List, drop};
ghost use Rattle.doc_model.specs.declared.edit.EditOp.TheVariants.{Split, Join, WrapSection, UnwrapSection, SetSection};
ghost use Rattle.doc_model.specs.declared.paragraph.Item.{Item};
ghost use Rattle.doc_model.specs.declared.paragraph.ParHead.{ParHead};
ghost use Rattle.edit_rules.specs.Places.{is_in_note, are_in_order};
ghost use Rattle.edit_rules.specs.Edited.{Edited, edited};
ghost use Rattle.node_array.specs.declared.row.Row.{Row};
ghost use Rattle.node_array.specs.declared.row.Row.TheVariants as row;
ghost use Rattle.node_array.specs.Rows.{rows_of};
ghost use Rattle.container_rows.specs.Standing.{IsApart};
ghost use Rattle.container_rows.specs.Texts.{note_count, through_ends};
ghost use Rattle.row_edits.specs.Sound.{IsSound};

/// Rows stay sound where a paragraph is split: the new one has the next number.
pub fn split_rows_stay_sound()
    ensures { (old : Edited) (at : ℕ) (before : List Row) (head : ParHead) (items : List Item) (rest : List Row)
        → IsApart old.document → rows_of old.document.body ≡ before ++ row.Par head items ∷ rest → IsSound old → IsSound (edited old (Split head.id at)) }
{}

/// Rows stay sound where a paragraph is joined with the next.
pub fn joined_rows_stay_sound()
    ensures { (old : Edited) (before : List Row) (head : ParHead) (items : List Item) (rest : List Row) (other : ParHead) (others : List Item) (more : List Row)
        → IsApart old.document → rows_of old.document.body ≡ before ++ row.Par head items ∷ rest → drop (through_ends (note_count items) rest) rest ≡ row.Par other others ∷ more
        → IsSound old → IsSound (edited old (Join head.id)) }
{}

/// Rows stay sound where blocks from one paragraph to another are wrapped.
pub fn wrapped_rows_stay_sound()
    ensures { (old : Edited) (before : List Row) (head : ParHead) (items : List Item) (rest inside : List Row) (other : ParHead) (others : List Item) (more : List Row) (name style : List ℕ)
        → IsApart old.document → is_in_note old.document head.id ≡ false → are_in_order old.document head.id other.id ≡ true
        → rows_of old.document.body ≡ before ++ row.Par head items ∷ rest → row.Par head items ∷ rest ≡ inside ++ row.Par other others ∷ more
        → IsSound old → IsSound (edited old (WrapSection head.id other.id name style)) }
{}

/// Rows stay sound where a section is unwrapped, whether there is one of this name or not.
pub fn unwrapped_rows_stay_sound()
    ensures { (old : Edited) (name : List ℕ) → IsSound old → IsSound (edited old (UnwrapSection name)) }
{}

/// Rows stay sound where a section is set.
pub fn set_rows_stay_sound()
    ensures { (old : Edited) (name : List ℕ) (protected hidden : Bool) → IsSound old → IsSound (edited old (SetSection name protected hidden)) }
{}
