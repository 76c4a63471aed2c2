//! What rows tell of a document. These functions do nothing.

ghost use Rattle.std.specs.Prelude.{◌≡◌, ℕ, List, [], false, map, slice_get, Option, Some};
ghost use Rattle.std.specs.List.{AllByRecursion as Each, flat_map};
ghost use Rattle.doc_model.specs.declared.block.Block.{Block};
ghost use Rattle.doc_model.specs.declared.document.Document.{Document};
ghost use Rattle.doc_model.specs.Reading.{paragraphs};
ghost use Rattle.doc_model.specs.Parts.{notes, sections};
ghost use Rattle.doc_model.specs.Valid.{IsNote};
ghost use Rattle.edit_rules.specs.Places.{placed_paragraphs, nested_sections};
ghost use Rattle.node_array.specs.declared.row.Row.{Row};
ghost use Rattle.node_array.specs.Containers.{containers_of};
ghost use Rattle.node_array.specs.Rows.{rows_of};
ghost use Rattle.row_facts.specs.Paragraphs.{bare_of, paragraph_in, section_in, row_head};
ghost use Rattle.row_facts.specs.Around.{paragraphs_placed, sections_nested, is_end, IsOpenBy};

/// The rows of paragraphs are the paragraphs in reading order, and each stands in the sections that are open before its row.
pub fn paragraphs_are_rows()
    ensures each { (doc : Document) → Each IsNote (notes doc) → map bare_of (paragraphs doc) ≡ flat_map paragraph_in (rows_of doc.body) }
    ensures placed { (doc : Document) → Each IsNote (notes doc)
        → map (λ placed. record { par = bare_of placed.par; around = map row_head placed.around }) (placed_paragraphs doc) ≡ paragraphs_placed [] (rows_of doc.body) }
{}

/// The rows that begin sections are the sections in reading order, and each stands in those that are open before its row.
pub fn sections_are_rows()
    ensures each { (doc : Document) → Each IsNote (notes doc) → map row_head (sections doc) ≡ flat_map section_in (rows_of doc.body) }
    ensures nested { (doc : Document) → Each IsNote (notes doc) → map (map row_head) (nested_sections doc) ≡ sections_nested [] (rows_of doc.body) }
{}

/// What is open before a row is known by its container: the row that begins it, and what is open before that one; and nothing
/// is open before a row without one.
pub fn containers_are_open()
    ensures { (body : List Block) (at : ℕ) (r : Row) (container : Option ℕ) → slice_get (rows_of body) at ≡ Some r → is_end r ≡ false
        → slice_get (containers_of body) at ≡ Some container → IsOpenBy (rows_of body) at container }
{}
