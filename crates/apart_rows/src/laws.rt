//! When no two paragraphs of a document have one number, and no note holds a note. This function does nothing.

ghost use Rattle.doc_model.specs.declared.document.Document.{Document};
ghost use Rattle.edit_rules.specs.Edited.{Edited};
ghost use Rattle.node_array.specs.Rows.{rows_of};
ghost use Rattle.container_rows.specs.Standing.{IsApart};
ghost use Rattle.paragraph_rows.specs.Flat.{AreFlat};
ghost use Rattle.paragraph_rows.specs.Standing.{AreApart};
ghost use Rattle.row_edits.specs.Sound.{IsSound};

/// Paragraphs and notes are apart where rows are, so in each edited document whose rows are sound.
pub fn flat_rows_are_apart()
    ensures rows { (doc : Document) → AreFlat (rows_of doc.body) → AreApart (rows_of doc.body) → IsApart doc }
    ensures sound { (old : Edited) → IsSound old → IsApart old.document }
{}
