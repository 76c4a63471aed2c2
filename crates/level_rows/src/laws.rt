//! What rows tell of what a container holds. These functions do nothing.

ghost use Rattle.std.specs.Prelude.{◌≡◌, ◌∷◌, ◌++◌, ◌&&◌, List, map, option_map, is_some};
ghost use Rattle.std.specs.List.{list_any, list_all};
ghost use Rattle.doc_model.specs.declared.document.Document.{Document};
ghost use Rattle.doc_model.specs.declared.paragraph.Item.{Item};
ghost use Rattle.doc_model.specs.declared.paragraph.ParHead.{ParHead};
ghost use Rattle.doc_model.specs.declared.paragraph.ParId.{ParId};
ghost use Rattle.doc_model.specs.Reading.{number_of};
ghost use Rattle.edit_rules.specs.Places.{held_from, through_first, are_in_order};
ghost use Rattle.edit_rules.specs.Refusals.{begins_with_two, are_paragraphs_in_order};
ghost use Rattle.node_array.specs.declared.row.Row.{Row};
ghost use Rattle.node_array.specs.declared.row.Row.TheVariants as row;
ghost use Rattle.node_array.specs.Rows.{rows_of};
ghost use Rattle.container_rows.specs.Standing.{IsApart};
ghost use Rattle.level_rows.specs.Level.{held_in, is_number, begin_two};

/// What a container holds from a paragraph on is told by the rows from that of the paragraph on, and so is whether another
/// paragraph stands behind it in the container.
pub fn held_is_told()
    ensures held { (doc : Document) (before : List Row) (head : ParHead) (items : List Item) (rest : List Row)
        → IsApart doc → rows_of doc.body ≡ before ++ row.Par head items ∷ rest
        → map (option_map number_of) (held_from doc head.id) ≡ held_in 0 (row.Par head items ∷ rest) }
    ensures order { (doc : Document) (before : List Row) (head : ParHead) (items : List Item) (rest : List Row) (last : ParId)
        → IsApart doc → rows_of doc.body ≡ before ++ row.Par head items ∷ rest
        → are_in_order doc head.id last ≡ list_any (is_number last.0) (held_in 0 (row.Par head items ∷ rest)) }
{}

/// Whether a paragraph can be joined with what stands behind it, and whether paragraphs stand together to be moved, is told
/// by the rows too.
pub fn togetherness_is_told()
    ensures two { (doc : Document) (before : List Row) (head : ParHead) (items : List Item) (rest : List Row)
        → IsApart doc → rows_of doc.body ≡ before ++ row.Par head items ∷ rest
        → begins_with_two (held_from doc head.id) ≡ begin_two (held_in 0 (row.Par head items ∷ rest)) }
    ensures all { (doc : Document) (before : List Row) (head : ParHead) (items : List Item) (rest : List Row) (last : ParId)
        → IsApart doc → rows_of doc.body ≡ before ++ row.Par head items ∷ rest
        → are_paragraphs_in_order doc head.id last
        ≡ (list_any (is_number last.0) (held_in 0 (row.Par head items ∷ rest)) && list_all is_some (through_first (is_number last.0) (held_in 0 (row.Par head items ∷ rest)))) }
{}
