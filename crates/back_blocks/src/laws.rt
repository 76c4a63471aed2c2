//! What blocks, and a text with its declarations, are read as.

ghost use Rattle.std.specs.Prelude.{◌≡◌, ◌++◌, List, [], map, false, true};
ghost use Rattle.std.specs.List.{flat_map, AllByRecursion as Each};
ghost use Rattle.doc_model.specs.declared.block.Block.{Block};
ghost use Rattle.doc_model.specs.declared.document.Document.{Document};
ghost use Rattle.doc_model.specs.Alike.{unnumbered};
ghost use Rattle.doc_model.specs.Parts.{block_sections, sections};
ghost use Rattle.doc_model.specs.Reading.{block_paragraphs, body_paragraphs};
ghost use Rattle.load_model.specs.Left.{nothing};
ghost use Rattle.load_model.specs.Styles.{Names};
ghost use Rattle.written_model.specs.Blocks.{block_element, note_element};
ghost use Rattle.written_model.specs.Written.{sequence_declarations, variable_declarations, written};
ghost use Rattle.back_fields.specs.Fit.{IsName};
ghost use Rattle.back_paragraphs.specs.Paragraphs.{IsReadablePar, outside, parts_of, whole_blocks};
ghost use Rattle.back_blocks.specs.Blocks.{IsReadableSection, declared_names};

/// Blocks are read as themselves, and nothing is left out.
pub fn blocks_are_read_back()
    ensures { (names : Names) (blocks : List Block) → Each (IsReadablePar names false note_element) (flat_map block_paragraphs blocks) → Each (IsReadableSection names) (flat_map block_sections blocks) → parts_of names (outside false) (map block_element blocks) ≡ whole_blocks blocks }
{}

/// A text is read as its blocks with the names that it declares, and nothing is left out.
pub fn text_is_read_back()
    ensures { (names : Names) (doc : Document) → Each (IsReadablePar names false note_element) (body_paragraphs doc) → Each (IsReadableSection names) (sections doc) → Each IsName doc.variables → Each IsName doc.sequences
        → parts_of names (outside false) (variable_declarations doc.variables ++ sequence_declarations doc.sequences ++ map block_element doc.body) ≡ record { blocks = doc.body; sources = []; declarations = declared_names false doc.variables ++ declared_names true doc.sequences; left = nothing } }
{}

/// The numbers of paragraphs aren't written: a document is written as the one that has none.
pub fn numbers_are_not_written()
    ensures { (doc : Document) → written (unnumbered doc) ≡ written doc }
{}
