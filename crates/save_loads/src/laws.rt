//! What saved bytes are loaded as.

ghost use Rattle.std.specs.Prelude.{◌≡◌, ℕ, List};
ghost use Rattle.std.specs.Str.{IsUtf8, chars};
ghost use Rattle.doc_model.specs.declared.document.Document.{Document};
ghost use Rattle.doc_model.specs.Valid.{IsValid};
ghost use Rattle.read_back.specs.Back.{HasRanges};
ghost use Rattle.save_loads.specs.Again.{IsLoadedAgain};
ghost use Rattle.tree_text.specs.Writing.{document_text};
ghost use Rattle.written_model.specs.Written.{written};

/// The canonical bytes of a valid document are loaded as a document that differs from it in the numbers of paragraphs alone, with a report
/// of zeros: nothing is lost by saving.
pub fn saved_documents_are_loaded()
    ensures { (bytes : List ℕ) (doc : Document) → IsValid doc → HasRanges doc → IsUtf8 bytes → chars bytes ≡ document_text (written doc) → IsLoadedAgain bytes doc }
{}
