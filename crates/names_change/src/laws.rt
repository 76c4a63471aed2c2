//! Which paragraphs the names of edited documents lead to. These functions do nothing.

ghost use Rattle.std.specs.Prelude.{◌≡◌, ℕ, ◌&&◌, not, List, ◌∷◌, ◌++◌, take, drop};
ghost use Rattle.doc_model.specs.declared.edit.EditOp.TheVariants.{Split, Join};
ghost use Rattle.doc_model.specs.declared.paragraph.Item.{Item};
ghost use Rattle.doc_model.specs.declared.paragraph.ParHead.{ParHead};
ghost use Rattle.edit_rules.specs.Edited.{Edited, edited_document};
ghost use Rattle.name_index.specs.Scan.{names_of};
ghost use Rattle.node_array.specs.declared.row.Row.{Row};
ghost use Rattle.node_array.specs.declared.row.Row.TheVariants as row;
ghost use Rattle.node_array.specs.Rows.{rows_of};
ghost use Rattle.container_rows.specs.Standing.{IsApart};
ghost use Rattle.container_rows.specs.Texts.{note_count, through_ends};
ghost use Rattle.row_edits.specs.Sound.{IsSound};
ghost use Rattle.names_change.specs.Leading.{have_name, Redirects};

/// Where a paragraph is split, the names of the items behind the place lead to the new paragraph, but for those that an item
/// before the place has too.
pub fn split_names_follow()
    ensures { (old : Edited) (at : ℕ) (before : List Row) (head : ParHead) (items : List Item) (rest : List Row)
        → IsApart old.document → rows_of old.document.body ≡ before ++ row.Par head items ∷ rest → IsSound old
        → Redirects (λ kind name. have_name kind name (drop at items) && not (have_name kind name (take at items))) head.id (record { 0 = old.next })
        (names_of old.document) (names_of (edited_document old.next (Split head.id at) old.document)) }
{}

/// Where a paragraph is joined with the next, the names of the next lead to it.
pub fn joined_names_follow()
    ensures { (old : Edited) (before : List Row) (head : ParHead) (items : List Item) (rest : List Row) (other : ParHead) (others : List Item) (more : List Row)
        → IsApart old.document → rows_of old.document.body ≡ before ++ row.Par head items ∷ rest → drop (through_ends (note_count items) rest) rest ≡ row.Par other others ∷ more
        → IsSound old → Redirects (λ kind name. have_name kind name others) other.id head.id (names_of old.document) (names_of (edited_document old.next (Join head.id) old.document)) }
{}
