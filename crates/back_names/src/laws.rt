//! What the names of a written document are read as.

ghost use Rattle.std.specs.Prelude.{◌≡◌, []};
ghost use Rattle.doc_model.specs.declared.document.Document.{Document};
ghost use Rattle.load_model.specs.Names.{resolved, places_of_bad_names};
ghost use Rattle.markup_nodes.specs.declared.tree.Elem.{Elem};
ghost use Rattle.tree_text.specs.Writing.{unplaced};
ghost use Rattle.written_model.specs.Written.{written};
ghost use Rattle.back_names.specs.Named.{named};

/// Whatever places the elements of a tree have, if it is otherwise the one that a document is written as, then each name in
/// it means what the namespaces of its root say, and none is bad.
pub fn names_are_read_back()
    ensures resolved { (doc : Document) (root : Elem) → unplaced root ≡ unplaced (written doc) → resolved root ≡ named root }
    ensures good { (doc : Document) (root : Elem) → unplaced root ≡ unplaced (written doc) → places_of_bad_names root [] ≡ [] }
{}
