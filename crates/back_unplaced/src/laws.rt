//! Where the elements of a written document stand.

ghost use Rattle.std.specs.Prelude.{◌≡◌};
ghost use Rattle.doc_model.specs.declared.document.Document.{Document};
ghost use Rattle.tree_text.specs.Writing.{unplaced};
ghost use Rattle.written_model.specs.Written.{written};

/// The place of each element of a written document is 0.
pub fn written_trees_have_no_places()
    ensures { (doc : Document) → unplaced (written doc) ≡ written doc }
{}
