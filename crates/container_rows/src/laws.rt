//! What holds of the rows of edited containers. These functions do nothing.

ghost use Rattle.std.specs.Prelude.{◌≡◌, ◌∷◌, ◌++◌, ℕ, List, take, drop};
ghost use Rattle.doc_model.specs.declared.block.Block.{Block};
ghost use Rattle.doc_model.specs.declared.document.Document.{Document};
ghost use Rattle.doc_model.specs.declared.paragraph.Item.{Item};
ghost use Rattle.doc_model.specs.declared.paragraph.ParHead.{ParHead};
ghost use Rattle.doc_model.specs.declared.edit.EditOp.TheVariants.{Split, Join};
ghost use Rattle.edit_rules.specs.Blocks.{at_paragraph};
ghost use Rattle.edit_rules.specs.Edited.{edited_document};
ghost use Rattle.node_array.specs.declared.row.Row.{Row};
ghost use Rattle.node_array.specs.declared.row.Row.TheVariants as row;
ghost use Rattle.node_array.specs.Rows.{rows_of};
ghost use Rattle.container_rows.specs.Halves.{second_head};
ghost use Rattle.container_rows.specs.Standing.{IsApart, CanBeMade, IsChangedFrom};
ghost use Rattle.container_rows.specs.Texts.{note_count, through_ends};

/// A change of what a paragraph's container holds from the paragraph on changes the rows from its row to the last ones of
/// its container, and no others.
pub fn other_rows_stay()
    ensures { (change : List Block → List Block) (doc : Document) (before : List Row) (head : ParHead) (items : List Item) (rest : List Row)
        → IsApart doc → CanBeMade change doc head.id → rows_of doc.body ≡ before ++ row.Par head items ∷ rest
        → IsChangedFrom change before (row.Par head items ∷ rest) (rows_of (at_paragraph head.id change doc).body) }
{}

/// Where a paragraph is split, its row keeps the items before the place, and those behind it stand in a new row. Between the
/// two stand the rows of the notes that are kept, and behind the new row those of the other notes.
pub fn split_rows()
    ensures { (next at : ℕ) (doc : Document) (before : List Row) (head : ParHead) (items : List Item) (rest : List Row)
        → IsApart doc → rows_of doc.body ≡ before ++ row.Par head items ∷ rest
        → rows_of (edited_document next (Split head.id at) doc).body
        ≡ before ++ row.Par head (take at items) ∷ (take (through_ends (note_count (take at items)) rest) rest
        ++ row.Par (second_head doc.styles next at head items) (drop at items) ∷ drop (through_ends (note_count (take at items)) rest) rest) }
{}

/// Where a paragraph is joined with the next, whose row stands behind the rows of its notes, its row takes up the items of
/// the next row, which goes.
pub fn joined_rows()
    ensures { (next : ℕ) (doc : Document) (before : List Row) (head : ParHead) (items : List Item) (rest : List Row) (other : ParHead) (others : List Item) (more : List Row)
        → IsApart doc → rows_of doc.body ≡ before ++ row.Par head items ∷ rest → drop (through_ends (note_count items) rest) rest ≡ row.Par other others ∷ more
        → rows_of (edited_document next (Join head.id) doc).body ≡ before ++ row.Par head (items ++ others) ∷ (take (through_ends (note_count items) rest) rest ++ more) }
{}
