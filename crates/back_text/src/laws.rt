//! What a written text is read as.

ghost use Rattle.std.specs.Prelude.{◌≡◌, false};
ghost use Rattle.std.specs.List.{AllByRecursion as Each};
ghost use Rattle.back_names.specs.Named.{named_node, placeless};
ghost use Rattle.back_text.specs.Written.{read_as};
ghost use Rattle.back_text_places.specs.Bare.{bare_blocks};
ghost use Rattle.back_paragraphs.specs.Paragraphs.{outside};
ghost use Rattle.back_valid.specs.Found.{AreNamesOf, IsAdjusted};
ghost use Rattle.doc_model.specs.declared.document.Document.{Document};
ghost use Rattle.doc_model.specs.Parts.{all_fields};
ghost use Rattle.doc_model.specs.Valid.{IsValid};
ghost use Rattle.load_model.specs.declared.element.Element.{Element as Read};
ghost use Rattle.load_model.specs.Blocks.{gives_of};
ghost use Rattle.load_model.specs.Met.{kept_of, met_in};
ghost use Rattle.load_model.specs.Styles.{Names};
ghost use Rattle.markup_nodes.specs.Node.{Element};
ghost use Rattle.written_model.specs.Written.{text_element};

/// Whatever places the elements of a text have, if it is otherwise the one that a valid document is written as, then the document's blocks
/// and declared names are read from it, but for the numbers of paragraphs and the places of declarations, and nothing is left out.
pub fn texts_are_read_back()
    ensures { (doc : Document) (names : Names) (text : Read) → IsValid doc → AreNamesOf doc names → Each IsAdjusted (all_fields doc) → Element (placeless text) ≡ named_node (text_element doc)
        → bare_blocks false ((gives_of (record { names = names; kept = kept_of (met_in text) }) text).inside (outside false)) ≡ read_as doc }
{}
