//! Why the tree of a written document is read as a document.

ghost use Rattle.std.specs.Prelude.{◌≡◌, []};
ghost use Rattle.doc_model.specs.declared.document.Document.{Document};
ghost use Rattle.doc_model.specs.Valid.{IsValid};
ghost use Rattle.load_model.specs.Names.{places_of_bad_names, resolved};
ghost use Rattle.load_model.specs.Offences.{offences};
ghost use Rattle.markup_nodes.specs.declared.tree.Elem.{Elem};
ghost use Rattle.written_model.specs.Written.{written};
ghost use Rattle.back_names.specs.Named.{named, placeless};
ghost use Rattle.back_offences.specs.Read.{IsReadOf};

/// Where a tree has no bad names, is but for places the one that a valid document is written as, and the document's parts are read
/// from it, it has no offence: its root, its media type and its text are there, no style is its own ancestor, no limit is passed,
/// and no table is met.
pub fn nothing_offends()
    ensures { (doc : Document) (tree : Elem) → IsValid doc → places_of_bad_names tree [] ≡ [] → placeless (resolved tree) ≡ named (written doc) → IsReadOf doc (resolved tree) → offences tree ≡ [] }
{}
