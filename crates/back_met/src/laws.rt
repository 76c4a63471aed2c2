//! What is met in a written text.

ghost use Rattle.std.specs.Prelude.{◌≡◌};
ghost use Rattle.std.specs.List.{flat_map};
ghost use Rattle.doc_model.specs.declared.document.Document.{Document};
ghost use Rattle.doc_model.specs.Valid.{IsValid};
ghost use Rattle.load_model.specs.declared.element.Element.{Element as Read};
ghost use Rattle.load_model.specs.Met.{met_in};
ghost use Rattle.markup_nodes.specs.Node.{Element};
ghost use Rattle.written_model.specs.Written.{text_element};
ghost use Rattle.back_names.specs.Named.{named_node, placeless};
ghost use Rattle.back_met.specs.Things.{AreMet, IsMet, block_things};

/// Whatever places the elements of a text have, if it is otherwise the one that a valid document is written as, then the sections,
/// marks, fields and notes of the document are met in it in reading order, each mark in its own text.
pub fn texts_are_met()
    ensures { (doc : Document) (text : Read) → IsValid doc → Element (placeless text) ≡ named_node (text_element doc) → AreMet IsMet (flat_map block_things doc.body) (met_in text) }
{}
