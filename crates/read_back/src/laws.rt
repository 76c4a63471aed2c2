//! What the bytes of a document are loaded as.

ghost use Rattle.std.specs.Prelude.{◌≡◌, ℕ, List};
ghost use Rattle.std.specs.Str.{IsUtf8, chars};
ghost use Rattle.doc_model.specs.declared.document.Document.{Document};
ghost use Rattle.doc_model.specs.Valid.{IsValid};
ghost use Rattle.read_back.specs.Back.{HasRanges, IsLoadedBack};
ghost use Rattle.tree_text.specs.Writing.{document_text};
ghost use Rattle.written_model.specs.Written.{written};

/// The canonical bytes of a valid document spell a tree without an offence. It is loaded as a document that differs from this one in the
/// numbers of paragraphs alone, with a report of zeros.
pub fn documents_are_read_back()
    ensures { (bytes : List ℕ) (doc : Document) → IsValid doc → HasRanges doc → IsUtf8 bytes → chars bytes ≡ document_text (written doc) → IsLoadedBack bytes doc }
{}
