//! The tree of a valid document may be written.

ghost use Rattle.std.specs.Prelude.{◌≡◌, ◌≤◌, true};
ghost use Rattle.doc_model.specs.declared.document.Document.{Document};
ghost use Rattle.doc_model.specs.Valid.{IsValid};
ghost use Rattle.tree_text.specs.Writing.{is_writable, height};
ghost use Rattle.written_model.specs.Written.{written};

/// The names of the tree of a valid document are names, its characters are legal and no carriage returns, and at most 200
/// of its elements stand in one another.
pub fn documents_are_writable()
    ensures legal { (doc : Document) → IsValid doc → is_writable (written doc) ≡ true }
    ensures low { (doc : Document) → IsValid doc → height (written doc) ≤ 200 }
{}
