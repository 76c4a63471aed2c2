//! What holds of an edit that isn't refused. These functions do nothing.

ghost use Rattle.std.specs.Prelude.{◌≡◌, ◌≢◌, ◌≤◌, ℕ, true, false, List, None};
ghost use Rattle.std.specs.List.{AllByRecursion as Each};
ghost use Rattle.doc_model.specs.declared.field.NoteClass.{NoteClass};
ghost use Rattle.doc_model.specs.declared.paragraph.ParId.{ParId};
ghost use Rattle.doc_model.specs.declared.style.Family.{Family};
ghost use Rattle.edit_rules.specs.Edited.{Edited};
ghost use Rattle.edit_rules.specs.Names.{needs, brought, is_there};
ghost use Rattle.edit_rules.specs.Places.{live_paragraph, item_count, held_from, is_in_note, are_in_order};
ghost use Rattle.edit_rules.specs.Refusals.{first_refusal, named_paragraphs, places, begins_with_two, are_paragraphs_in_order, is_bad_target};
ghost use Rattle.edit_rules.specs.Styles.{first_user};
ghost use Rattle.style_model.specs.Lineage.{would_loop};

use doc_model::EditOp;

/// The paragraphs that an edit names are live, its places are within them, the names that it needs are there, those that it
/// brings are new, and its ranges don't end before they begin.
pub fn allowed_edits_meet_what_is_asked()
    ensures live { (old : Edited) (op : EditOp) → first_refusal old op ≡ None → Each (λ par. live_paragraph old.document par ≢ None) (named_paragraphs op) }
    ensures within { (old : Edited) (op : EditOp) → first_refusal old op ≡ None → Each (λ place. place.1 ≤ item_count old.document place.0) (places op) }
    ensures needed { (old : Edited) (op : EditOp) → first_refusal old op ≡ None → Each (λ need. need.is_met ≡ true) (needs old.document op) }
    ensures new { (old : Edited) (op : EditOp) → first_refusal old op ≡ None → Each (λ new. is_there new.given new.name ≡ false) (brought old.document op) }
    ensures deleted { (old : Edited) (par : ParId) (from to : ℕ) → first_refusal old (EditOp.DeleteRange par from to) ≡ None → from ≤ to }
    ensures spanned { (old : Edited) (par : ParId) (from to : ℕ) (style : List ℕ) → first_refusal old (EditOp.SetSpan par from to style) ≡ None → from ≤ to }
{}

/// What an edit joins, moves or wraps stands together, a note is put in outside notes, no style becomes its own ancestor, and
/// a style that goes is used by nothing.
pub fn allowed_edits_stand_together()
    ensures joined { (old : Edited) (par : ParId) → first_refusal old (EditOp.Join par) ≡ None → begins_with_two (held_from old.document par) ≡ true }
    ensures moved { (old : Edited) (first last after : ParId) → first_refusal old (EditOp.MovePars first last after) ≡ None → are_paragraphs_in_order old.document first last ≡ true }
    ensures target { (old : Edited) (first last after : ParId) → first_refusal old (EditOp.MovePars first last after) ≡ None → is_bad_target old.document first last after ≡ false }
    ensures noted { (old : Edited) (par : ParId) (at : ℕ) (class : NoteClass) (id : List ℕ) → first_refusal old (EditOp.InsertNote par at class id) ≡ None → is_in_note old.document par ≡ false }
    ensures wrapped { (old : Edited) (first last : ParId) (name style : List ℕ) → first_refusal old (EditOp.WrapSection first last name style) ≡ None → are_in_order old.document first last ≡ true }
    ensures outside { (old : Edited) (first last : ParId) (name style : List ℕ) → first_refusal old (EditOp.WrapSection first last name style) ≡ None → is_in_note old.document first ≡ false }
    ensures parents { (old : Edited) (of : Family) (name parent : List ℕ) → first_refusal old (EditOp.SetParent of name parent) ≡ None → would_loop old.document.styles of name parent ≡ false }
    ensures unused { (old : Edited) (of : Family) (name : List ℕ) → first_refusal old (EditOp.RemoveStyle of name) ≡ None → first_user old.document of name ≡ None }
{}
