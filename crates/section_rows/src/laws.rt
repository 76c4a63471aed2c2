//! What holds of the rows of edited sections. These functions do nothing.

ghost use Rattle.std.specs.Prelude.{◌≡◌, ◌≢◌, ◌+◌, ◌∷◌, ◌++◌, ℕ, Bool, List, [], map, take, drop};
ghost use Rattle.doc_model.specs.declared.document.Document.{Document};
ghost use Rattle.doc_model.specs.declared.edit.EditOp.TheVariants.{SetSection, UnwrapSection};
ghost use Rattle.doc_model.specs.Parts.{sections};
ghost use Rattle.doc_model.specs.Valid.{AreNamesOrNone};
ghost use Rattle.edit_rules.specs.Edited.{edited_document};
ghost use Rattle.node_array.specs.declared.row.Row.{Row};
ghost use Rattle.node_array.specs.declared.row.Row.TheVariants as row;
ghost use Rattle.node_array.specs.declared.row.SectionHead.{SectionHead};
ghost use Rattle.node_array.specs.Rows.{rows_of};
ghost use Rattle.section_rows.specs.Starts.{with_head_set, closing};

/// Where a section is set, its head changes in its Start row.
pub fn set_rows()
    ensures all { (next : ℕ) (name : List ℕ) (protected hidden : Bool) (doc : Document)
        → rows_of (edited_document next (SetSection name protected hidden) doc).body ≡ map (with_head_set name protected hidden) (rows_of doc.body) }
    ensures one { (next : ℕ) (protected hidden : Bool) (doc : Document) (before : List Row) (head : SectionHead) (rest : List Row)
        → AreNamesOrNone (map (λ section. section.name) (sections doc)) → head.name ≢ [] → rows_of doc.body ≡ before ++ row.Start head ∷ rest
        → rows_of (edited_document next (SetSection head.name protected hidden) doc).body
        ≡ before ++ row.Start (record head { protected = protected; hidden = hidden }) ∷ rest }
{}

/// Where a section is unwrapped, its Start row goes, and the End row that closes it.
pub fn unwrapped_rows()
    ensures { (next : ℕ) (doc : Document) (before : List Row) (head : SectionHead) (rest : List Row)
        → AreNamesOrNone (map (λ section. section.name) (sections doc)) → head.name ≢ [] → rows_of doc.body ≡ before ++ row.Start head ∷ rest
        → rows_of (edited_document next (UnwrapSection head.name) doc).body ≡ before ++ (take (closing 0 rest) rest ++ drop (closing 0 rest + 1) rest) }
{}
