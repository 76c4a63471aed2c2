//! What holds of the measures of documents. These functions do nothing.

ghost use Rattle.std.specs.Prelude.{◌≡◌, ◌++◌, length, map, max, sum, filter};
ghost use Rattle.std.specs.List.{flat_map};
ghost use Rattle.doc_model.specs.declared.document.Document.{Document};
ghost use Rattle.doc_model.specs.declared.paragraph.Par.{Par};
ghost use Rattle.doc_model.specs.declared.refusal.Limit.{Limit};
ghost use Rattle.doc_model.specs.Alike.{in_document};
ghost use Rattle.doc_model.specs.Limits.{measure, greatest, counts_as_section};
ghost use Rattle.doc_model.specs.Parts.{sections, head_paragraphs};
ghost use Rattle.node_array.specs.Rows.{rows_of};
ghost use Rattle.paragraph_rows.specs.Flat.{AreFlat};
ghost use Rattle.paragraph_rows.specs.Standing.{number_in};
ghost use Rattle.row_facts.specs.Paragraphs.{section_in};
ghost use Rattle.row_measures.specs.RowCounts.{item_counts};
ghost use Rattle.row_measures.specs.RowNames.{names_in, other_names, longest};

/// Changes of paragraphs leave the sections and how deep they stand.
pub fn changes_of_paragraphs_leave_sections()
    ensures sections { (doc : Document) (change : Par → Par) → sections (in_document change doc) ≡ sections doc }
    ensures count { (doc : Document) (change : Par → Par) → measure (in_document change doc) Limit.Sections ≡ measure doc Limit.Sections }
    ensures depth { (doc : Document) (change : Par → Par) → measure (in_document change doc) Limit.SectionDepth ≡ measure doc Limit.SectionDepth }
{}

/// Paragraphs, items, sections and the lengths of names are counted over the rows.
pub fn measures_are_those_of_rows()
    ensures paragraphs { (doc : Document) → AreFlat (rows_of doc.body) → measure doc Limit.Paragraphs ≡ length (flat_map number_in (rows_of doc.body)) }
    ensures items { (doc : Document) → AreFlat (rows_of doc.body) → measure doc Limit.Items ≡ sum (item_counts (rows_of doc.body)) }
    ensures most { (doc : Document) → AreFlat (rows_of doc.body)
        → measure doc Limit.ItemsOfParagraph ≡ greatest (item_counts (rows_of doc.body) ++ map (λ par. length par.items) (head_paragraphs doc)) }
    ensures sections { (doc : Document) → AreFlat (rows_of doc.body)
        → measure doc Limit.Sections ≡ length (filter (λ head. counts_as_section head.kind) (flat_map section_in (rows_of doc.body))) }
    ensures names { (doc : Document) → AreFlat (rows_of doc.body)
        → measure doc Limit.NameLength ≡ max (longest (other_names doc)) (longest (flat_map names_in (rows_of doc.body))) }
{}
