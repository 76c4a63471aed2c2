//! The text of a document as it is read.

ghost use Rattle.load_model.specs.declared.element.Element.{Element};
ghost use Rattle.load_model.specs.Loaded.{draft_of};
ghost use Rattle.legal_trees.specs.Legal.{IsLegalTree};
ghost use Rattle.tree_places.specs.Order.{IsInOrder};
ghost use Rattle.valid_text.specs.Texts.{AreTextsGood, AreTextsValid};

/// In the draft of a tree of legal characters each paragraph, item, note, field and section is valid, but for the names of sections.
pub fn loaded_texts_are_good()
    ensures { (root : Element) → IsLegalTree root → AreTextsGood (draft_of root) }
{}

/// If the places of its elements rise too, each section and each mark has a name, and each note a paragraph.
pub fn loaded_texts_are_valid()
    ensures { (root : Element) → IsLegalTree root → IsInOrder root → AreTextsValid (draft_of root) }
{}
