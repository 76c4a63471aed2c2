//! What is met in a written text.

ghost use Rattle.std.specs.Prelude.{◌≡◌};
ghost use Rattle.std.specs.List.{AllByRecursion as Each};
ghost use Rattle.doc_model.specs.declared.document.Document.{Document};
ghost use Rattle.doc_model.specs.Valid.{IsValid};
ghost use Rattle.load_model.specs.declared.element.Element.{Element as Read};
ghost use Rattle.load_model.specs.Met.{kept_of, met_in};
ghost use Rattle.markup_nodes.specs.Node.{Element};
ghost use Rattle.written_model.specs.Written.{text_element};
ghost use Rattle.back_names.specs.Named.{named_node, placeless};
ghost use Rattle.back_kept.specs.Kept.{IsKept};

/// Whatever places the elements of a text have, if it is otherwise the one that a valid document is written as, then everything
/// that is met in it is kept.
pub fn what_is_met_is_kept()
    ensures { (doc : Document) (text : Read) → IsValid doc → Element (placeless text) ≡ named_node (text_element doc) → Each (IsKept (kept_of (met_in text))) (met_in text) }
{}
