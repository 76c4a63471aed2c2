//! What a valid document has that its text is read back.

ghost use Rattle.std.specs.Prelude.{false};
ghost use Rattle.std.specs.List.{AllByRecursion as Each};
ghost use Rattle.doc_model.specs.declared.document.Document.{Document};
ghost use Rattle.doc_model.specs.Alike.{unnumbered};
ghost use Rattle.doc_model.specs.Parts.{all_fields, sections};
ghost use Rattle.doc_model.specs.Reading.{body_paragraphs};
ghost use Rattle.doc_model.specs.Valid.{IsValid};
ghost use Rattle.load_model.specs.Styles.{Names};
ghost use Rattle.written_model.specs.Blocks.{note_element};
ghost use Rattle.back_fields.specs.Fit.{IsName};
ghost use Rattle.back_paragraphs.specs.Paragraphs.{IsReadablePar};
ghost use Rattle.back_blocks.specs.Blocks.{IsReadableSection};
ghost use Rattle.back_valid.specs.Found.{AreNamesOf, IsAdjusted};

/// Each paragraph of a valid document can be read back with its notes, where its number is left out and its names are there.
pub fn paragraphs_are_readable()
    ensures { (names : Names) (doc : Document) → AreNamesOf doc names → IsValid doc → Each IsAdjusted (all_fields doc) → Each (IsReadablePar names false note_element) (body_paragraphs (unnumbered doc)) }
{}

/// Each section of a valid document can be read back, where its style is there.
pub fn sections_are_readable()
    ensures { (names : Names) (doc : Document) → AreNamesOf doc names → IsValid doc → Each (IsReadableSection names) (sections (unnumbered doc)) }
{}

/// The declared names of a valid document are names as they are read.
pub fn declared_names_are_names()
    ensures variables { (doc : Document) → IsValid doc → Each IsName doc.variables }
    ensures sequences { (doc : Document) → IsValid doc → Each IsName doc.sequences }
{}
