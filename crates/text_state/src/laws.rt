//! A law of the parts of a document. Its function does nothing.

ghost use Rattle.std.specs.Prelude.{◌≡◌, ℕ, List};
ghost use Rattle.doc_model.specs.declared.document.Document.{Document};
ghost use Rattle.doc_model.specs.declared.edit.DeclKind.{DeclKind};
ghost use Rattle.edit_rules.specs.Edited.{with_declared};
ghost use Rattle.text_state.specs.RestOf.{rest_of, with_name};

/// A name that is declared in a document is declared in its parts.
pub fn names_are_declared_in_parts()
    ensures { (kind : DeclKind) (name : List ℕ) (doc : Document) → rest_of (with_declared kind name doc) ≡ with_name kind name (rest_of doc) }
{}
