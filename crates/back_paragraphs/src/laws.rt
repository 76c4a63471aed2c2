//! What paragraphs and notes are read as.

ghost use Rattle.std.specs.Prelude.{◌≡◌, ℕ, Bool, false, List, [], ◌∷◌, map};
ghost use Rattle.std.specs.List.{AllByRecursion as Each};
ghost use Rattle.doc_model.specs.declared.paragraph.Note.{Note};
ghost use Rattle.doc_model.specs.declared.paragraph.Par.{Par};
ghost use Rattle.doc_model.specs.declared.paragraph.What.TheOpen.{What-F};
ghost use Rattle.load_model.specs.Blocks.{as_block, node_content};
ghost use Rattle.load_model.specs.Content.{Read, item_in};
ghost use Rattle.load_model.specs.Styles.{Names};
ghost use Rattle.markup_nodes.specs.declared.tree.Elem.{Elem};
ghost use Rattle.markup_nodes.specs.Node.{Node};
ghost use Rattle.written_model.specs.Blocks.{note_element, paragraph};
ghost use Rattle.back_fields.specs.Given.{given, whole};
ghost use Rattle.back_paragraphs.specs.Paragraphs.{IsReadablePar, IsReadableNote, outside, parts_of, whole_blocks};

/// Paragraphs are read as themselves, with their list places, and nothing is left out.
pub fn paragraphs_are_read_back()
    ensures { (names : Names) (in_note : Bool) (note_node : Note → Node Elem) (pars : List Par) → Each (IsReadablePar names in_note note_node) pars → parts_of names (outside in_note) (map (paragraph note_node) pars) ≡ whole_blocks (map as_block pars) }
{}

/// A note is read as itself, and nothing is left out.
pub fn notes_are_read_back()
    ensures { (names : Names) (spans : List (List ℕ)) (note : Note) → IsReadableNote names note → node_content (record { spans = spans; in_note = false }) (given names (note_element note)) ≡ whole (Read (item_in spans (What-F.Note note)) ∷ []) }
{}
