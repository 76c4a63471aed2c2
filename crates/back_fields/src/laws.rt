//! What the fields of a paragraph are read as.

ghost use Rattle.std.specs.Prelude.{◌≡◌, ◌∷◌, []};
ghost use Rattle.doc_model.specs.declared.field.Field.{Field};
ghost use Rattle.doc_model.specs.declared.paragraph.What.TheOpen.{What-F};
ghost use Rattle.load_model.specs.Blocks.{Around, node_content};
ghost use Rattle.load_model.specs.Content.{Read, item_in};
ghost use Rattle.load_model.specs.Styles.{Names};
ghost use Rattle.written_model.specs.Fields.{field_element};
ghost use Rattle.back_fields.specs.Fit.{IsFit};
ghost use Rattle.back_fields.specs.Given.{given, whole};

/// A field is read as itself where it stands, and nothing is left out.
pub fn fields_are_read_back()
    ensures { (names : Names) (around : Around) (field : Field) → IsFit field → node_content around (given names (field_element field)) ≡ whole (Read (item_in around.spans (What-F.Field field)) ∷ []) }
{}
