//! What holds of the names of a document. These functions do nothing.

ghost use Rattle.std.specs.Prelude.{◌≡◌, ◌≢◌, ℕ, List, is_some};
ghost use Rattle.std.specs.List.{AllByRecursion as Each};
ghost use Rattle.doc_model.specs.declared.document.Document.{Document};
ghost use Rattle.doc_model.specs.Parts.{notes, sections};
ghost use Rattle.doc_model.specs.Valid.{IsNote};
ghost use Rattle.edit_rules.specs.Names.{is_there, bookmark_names, section_names, reference_names, note_ids};
ghost use Rattle.name_index.specs.Scan.{scanned};

use name_index::NameKind;

/// A name is among those of a kind where a scan of the document finds it.
pub fn names_are_there()
    ensures bookmark { (doc : Document) (name : List ℕ) → is_there (bookmark_names doc) name ≡ is_some (scanned doc NameKind.Bookmark name) }
    ensures section { (doc : Document) (name : List ℕ) → Each (λ section. section.blocks ≢ 0) (sections doc) → is_there (section_names doc) name ≡ is_some (scanned doc NameKind.Section name) }
    ensures reference { (doc : Document) (name : List ℕ) → is_there (reference_names doc) name ≡ is_some (scanned doc NameKind.Reference name) }
    ensures note { (doc : Document) (name : List ℕ) → Each IsNote (notes doc) → is_there (note_ids doc) name ≡ is_some (scanned doc NameKind.Note name) }
{}
