//! Laws of drafts.
ghost use Rattle.std.specs.Prelude.{◌≡◌, ℕ, List, map};
ghost use Rattle.doc_model.specs.declared.document.Document.{Document};
ghost use Rattle.doc_model.specs.Alike.{in_document};
ghost use Rattle.doc_model.specs.Reading.{paragraphs, number_of};
ghost use Rattle.load_model.specs.Blocks.{with_place};
ghost use Rattle.load_model.specs.Loaded.{at_most_ten, numbered};
ghost use Rattle.draft_numbers.specs.Counts.{count_of};

/// A draft is numbered alike whether its list places have at most ten levels already or not.
pub fn alike_drafts_are_numbered_alike()
    ensures numbers { (draft : Document) → map number_of (paragraphs (in_document (with_place at_most_ten) draft)) ≡ map number_of (paragraphs draft) }
    ensures numbered { (numbers : List ℕ) (draft : Document) → in_document (numbered numbers) (in_document (with_place at_most_ten) draft) ≡ in_document (numbered numbers) draft }
{}

/// Its paragraphs have as many items.
pub fn alike_drafts_are_counted_alike()
    ensures { (draft : Document) → map count_of (paragraphs (in_document (with_place at_most_ten) draft)) ≡ map count_of (paragraphs draft) }
{}
