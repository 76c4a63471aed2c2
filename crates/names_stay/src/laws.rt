//! What holds of the names of edited documents. These functions do nothing.

ghost use Rattle.std.specs.Prelude.{◌≡◌, ◌≤◌, ℕ, List, Option};
ghost use Rattle.doc_model.specs.declared.document.Document.{Document};
ghost use Rattle.doc_model.specs.declared.field.Field.{Field};
ghost use Rattle.doc_model.specs.declared.paragraph.ListPos.{ListPos};
ghost use Rattle.doc_model.specs.declared.paragraph.Par.{Par};
ghost use Rattle.doc_model.specs.declared.paragraph.ParId.{ParId};
ghost use Rattle.doc_model.specs.declared.paragraph.What.TheOpen.{What-F};
ghost use Rattle.doc_model.specs.Alike.{in_document};
ghost use Rattle.edit_rules.specs.Edited.{edited_document};
ghost use Rattle.name_index.specs.Scan.{names_of};
ghost use Rattle.names_stay.specs.Blind.{IsNameless, KeepsNames};

use doc_model::EditOp;

/// A change of paragraphs that leaves their numbers and the names of their items leaves the names of the document.
pub fn changes_leave_names()
    ensures { (doc : Document) (change : Par → Par) → KeepsNames change → names_of (in_document change doc) ≡ names_of doc }
{}

/// Names stay where text is put in, where a paragraph gets a style, a heading level or a list place, where spans are set, and
/// where a field is put in that isn't a sequence field.
pub fn edits_leave_names()
    ensures text { (next : ℕ) (doc : Document) (par : ParId) (at : ℕ) (text : List ℕ) → names_of (edited_document next (EditOp.InsertText par at text) doc) ≡ names_of doc }
    ensures style { (next : ℕ) (doc : Document) (par : ParId) (style : List ℕ) → names_of (edited_document next (EditOp.SetParStyle par style) doc) ≡ names_of doc }
    ensures span { (next : ℕ) (doc : Document) (par : ParId) (from to : ℕ) (style : List ℕ) → from ≤ to → names_of (edited_document next (EditOp.SetSpan par from to style) doc) ≡ names_of doc }
    ensures heading { (next : ℕ) (doc : Document) (par : ParId) (level : ℕ) → names_of (edited_document next (EditOp.SetHeading par level) doc) ≡ names_of doc }
    ensures list { (next : ℕ) (doc : Document) (par : ParId) (list : Option ListPos) → names_of (edited_document next (EditOp.SetList par list) doc) ≡ names_of doc }
    ensures field { (next : ℕ) (doc : Document) (par : ParId) (at : ℕ) (field : Field) → IsNameless (What-F.Field field) → names_of (edited_document next (EditOp.InsertField par at field) doc) ≡ names_of doc }
{}
