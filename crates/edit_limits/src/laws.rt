//! What holds of the limits of edited documents that were within them before. These functions do nothing.

ghost use Rattle.std.specs.Prelude.{◌≡◌, ◌≤◌, ◌+◌, ℕ, List, [], ◌∷◌, length, position, slice_get, Option, Some, None, option_to_list};
ghost use Rattle.std.specs.List.{AllByRecursion as Each};
ghost use Rattle.doc_model.specs.declared.document.Document.{Document};
ghost use Rattle.doc_model.specs.declared.paragraph.Item.{Item};
ghost use Rattle.doc_model.specs.declared.paragraph.ListPos.{ListPos};
ghost use Rattle.doc_model.specs.declared.paragraph.ParHead.{ParHead};
ghost use Rattle.doc_model.specs.declared.paragraph.ParId.{ParId};
ghost use Rattle.doc_model.specs.Limits.{IsWithinLimits, first_passed, measure};
ghost use Rattle.edit_rules.specs.Edited.{edited_document};
ghost use Rattle.node_array.specs.declared.row.Row.TheVariants as row;
ghost use Rattle.node_array.specs.Places.{is_par};
ghost use Rattle.node_array.specs.Rows.{rows_of};
ghost use Rattle.paragraph_rows.specs.Flat.{AreFlat};
ghost use Rattle.paragraph_rows.specs.Standing.{AreApart};
ghost use Rattle.edit_limits.specs.Over.{first_over};

use doc_model::{EditOp, Limit};

/// A style, a heading level and a list place pass no limit, where their names are no longer than names may be.
pub fn heads_pass_no_limit()
    ensures style { (next : ℕ) (doc : Document) (par : ParId) (style : List ℕ) → IsWithinLimits doc → AreFlat (rows_of doc.body) → length style ≤ 1024
        → first_passed (edited_document next (EditOp.SetParStyle par style) doc) ≡ None }
    ensures level { (next : ℕ) (doc : Document) (par : ParId) (level : ℕ) → IsWithinLimits doc → AreFlat (rows_of doc.body)
        → first_passed (edited_document next (EditOp.SetHeading par level) doc) ≡ None }
    ensures list { (next : ℕ) (doc : Document) (par : ParId) (list : Option ListPos) → IsWithinLimits doc → AreFlat (rows_of doc.body)
        → Each (λ place. length place.style ≤ 1024) (option_to_list list) → first_passed (edited_document next (EditOp.SetList par list) doc) ≡ None }
{}

/// A text that is put in passes a limit where its characters are too many for the paragraph or for the document.
pub fn texts_pass_item_limits()
    ensures { (next : ℕ) (doc : Document) (par : ParId) (at place : ℕ) (text : List ℕ) (head : ParHead) (items : List Item) → IsWithinLimits doc
        → AreFlat (rows_of doc.body) → AreApart (rows_of doc.body)
        → position (is_par par) (rows_of doc.body) ≡ Some place → slice_get (rows_of doc.body) place ≡ Some (row.Par head items)
        → first_passed (edited_document next (EditOp.InsertText par at text) doc)
        ≡ first_over (record { limit = Limit.ItemsOfParagraph; count = length items + length text }
        ∷ record { limit = Limit.Items; count = measure doc Limit.Items + length text } ∷ []) }
{}
