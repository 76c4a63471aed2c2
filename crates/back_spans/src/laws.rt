//! What nodes are read as that were put into their spans.

ghost use Rattle.std.specs.Prelude.{◌≡◌, List, map};
ghost use Rattle.std.specs.List.{flat_map, AllByRecursion as Each};
ghost use Rattle.load_model.specs.Blocks.{Around, content_of};
ghost use Rattle.load_model.specs.Styles.{Names};
ghost use Rattle.written_model.specs.Content.{Spanned, in_spans, span_depth};
ghost use Rattle.back_fields.specs.Given.{given, whole};
ghost use Rattle.back_spans.specs.Spans.{IsIn, read_in};

/// Nodes are read as each alone would be in its own spans, and nothing is left out.
pub fn spans_are_read_back()
    ensures { (names : Names) (around : Around) (nodes : List Spanned) → Each (IsIn names around) nodes → content_of around (map (given names) (in_spans (span_depth nodes) nodes)) ≡ whole (flat_map (λ node. (read_in names around node).raws) nodes) }
{}
