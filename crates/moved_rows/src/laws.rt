//! What holds of the rows of paragraphs that are moved. Its function does nothing.

ghost use Rattle.std.specs.Prelude.{◌≡◌, ◌∷◌, ◌++◌, ℕ, true, List, take, drop};
ghost use Rattle.doc_model.specs.declared.document.Document.{Document};
ghost use Rattle.doc_model.specs.declared.edit.EditOp.TheVariants.{MovePars};
ghost use Rattle.doc_model.specs.declared.paragraph.Item.{Item};
ghost use Rattle.doc_model.specs.declared.paragraph.ParHead.{ParHead};
ghost use Rattle.edit_rules.specs.Edited.{edited_document};
ghost use Rattle.edit_rules.specs.Refusals.{are_paragraphs_in_order};
ghost use Rattle.node_array.specs.declared.row.Row.{Row};
ghost use Rattle.node_array.specs.declared.row.Row.TheVariants as row;
ghost use Rattle.node_array.specs.Rows.{rows_of};
ghost use Rattle.container_rows.specs.Standing.{IsApart};
ghost use Rattle.container_rows.specs.Texts.{note_count, through_ends};

/// Where paragraphs are moved, the rows from that of the first to the last of the last one's notes go, and stand again
/// behind the rows of the notes of the paragraph that they are moved behind.
pub fn moved_rows()
    ensures { (next : ℕ) (doc : Document) (before : List Row) (head : ParHead) (items : List Item) (rest inside : List Row) (other : ParHead) (others : List Item) (more front : List Row) (target : ParHead) (targets : List Item) (behind : List Row)
        → IsApart doc → are_paragraphs_in_order doc head.id other.id ≡ true
        → rows_of doc.body ≡ before ++ row.Par head items ∷ rest → row.Par head items ∷ rest ≡ inside ++ row.Par other others ∷ more
        → before ++ drop (through_ends (note_count others) more) more ≡ front ++ row.Par target targets ∷ behind
        → rows_of (edited_document next (MovePars head.id other.id target.id) doc).body
        ≡ front ++ row.Par target targets ∷ (take (through_ends (note_count targets) behind) behind
        ++ ((inside ++ row.Par other others ∷ take (through_ends (note_count others) more) more) ++ drop (through_ends (note_count targets) behind) behind)) }
{}
