//! What holds of the rows of what a container holds from a paragraph on. These functions do nothing.

ghost use Rattle.std.specs.Prelude.{◌≡◌, ◌∷◌, ◌++◌, ℕ, true, false, List, take, drop, length};
ghost use Rattle.doc_model.specs.declared.document.Document.{Document};
ghost use Rattle.doc_model.specs.declared.paragraph.Item.{Item};
ghost use Rattle.doc_model.specs.declared.paragraph.ParHead.{ParHead};
ghost use Rattle.doc_model.specs.declared.block.Block.{Block};
ghost use Rattle.doc_model.specs.declared.edit.EditOp.TheVariants.{WrapSection};
ghost use Rattle.edit_rules.specs.Places.{is_in_note, are_in_order};
ghost use Rattle.edit_rules.specs.Edited.{edited_document};
ghost use Rattle.node_array.specs.declared.row.Row.{Row};
ghost use Rattle.node_array.specs.declared.row.Row.TheVariants as row;
ghost use Rattle.node_array.specs.Rows.{rows_of};
ghost use Rattle.container_rows.specs.Standing.{IsApart, AreBehindAll};
ghost use Rattle.container_rows.specs.Texts.{note_count, through_ends};
ghost use Rattle.section_rows.specs.Starts.{closing};
ghost use Rattle.held_rows.specs.HeldFrom.{IsHeldFrom};
ghost use Rattle.held_rows.specs.Wrapping.{wrapping};

/// The rows from that of a paragraph on begin with those of the blocks that its container holds from it on.
pub fn held_rows_come_first()
    ensures { (doc : Document) (before : List Row) (head : ParHead) (items : List Item) (rest : List Row)
        → IsApart doc → rows_of doc.body ≡ before ++ row.Par head items ∷ rest → IsHeldFrom doc head.id (row.Par head items ∷ rest) }
{}

/// The rows of what a container holds end before the one that closes the container.
pub fn held_rows_are_closed()
    ensures { (blocks : List Block) (behind : List Row) → AreBehindAll behind → closing 0 (rows_of blocks ++ behind) ≡ length (rows_of blocks) }
{}

/// Where blocks from one paragraph to another are wrapped, a Start row stands before the row of the first, and an End row
/// behind the rows of the notes of the last.
pub fn wrapped_rows()
    ensures { (next : ℕ) (doc : Document) (before : List Row) (head : ParHead) (items : List Item) (rest inside : List Row) (other : ParHead) (others : List Item) (more : List Row) (name style : List ℕ)
        → IsApart doc → is_in_note doc head.id ≡ false → are_in_order doc head.id other.id ≡ true
        → rows_of doc.body ≡ before ++ row.Par head items ∷ rest → row.Par head items ∷ rest ≡ inside ++ row.Par other others ∷ more
        → rows_of (edited_document next (WrapSection head.id other.id name style) doc).body
        ≡ before ++ row.Start (wrapping name style) ∷ (inside ++ row.Par other others ∷ (take (through_ends (note_count others) more) more ++ row.End ∷ drop (through_ends (note_count others) more) more)) }
{}
