//! Laws of the edits. Their functions do nothing.
ghost use Rattle.std.specs.Prelude.{◌≡◌, ℕ, ◌+◌, ◌≤◌, ◌<◌, List, length, Option, None, Some, Err, IfOk};
ghost use Rattle.doc_model.specs.declared.block.Block.{Block};
ghost use Rattle.doc_model.specs.declared.paragraph.Item.{Item};
ghost use Rattle.doc_model.specs.declared.paragraph.Par.{Par};
ghost use Rattle.doc_model.specs.declared.paragraph.ParId.{ParId};
ghost use Rattle.doc_model.specs.declared.style.Style.{Style};
ghost use Rattle.doc_model.specs.declared.edit.EditOp.{EditOp};
ghost use Rattle.doc_model.specs.declared.refusal.Refusal.{Refusal};
ghost use Rattle.doc_model.specs.declared.refusal.Limit.TheVariants.{Operations};
ghost use Rattle.edit_rules.specs.Places.{live_paragraph};
ghost use Rattle.edit_rules.specs.Texts.{with_text, without_range};
ghost use Rattle.edit_rules.specs.Blocks.{first_half, second_half, with_items_of, section_of, unwrapped};
ghost use Rattle.edit_rules.specs.Edited.{Edited};
ghost use Rattle.edit_rules.specs.Refusals.{first_refusal};
ghost use Rattle.edit_rules.specs.Group.{edited_by, edited_by_group};

use doc_model::{EditOp, Refusal};

/// A paragraph that isn't live is named before any other refusal: the first one of the operation's fields.
pub fn unknown_paragraphs_come_first()
    ensures join { (old : Edited) (par : ParId) → live_paragraph old.document par ≡ None → first_refusal old (EditOp.Join par) ≡ Some (Refusal.NoPar par) }
    ensures typing { (old : Edited) (par : ParId) (at : ℕ) (text : List ℕ) → live_paragraph old.document par ≡ None
        → first_refusal old (EditOp.InsertText par at text) ≡ Some (Refusal.NoPar par) }
    ensures moving { (old : Edited) (first last after : ParId) (live : Par) → live_paragraph old.document first ≡ Some live → live_paragraph old.document last ≡ None
        → first_refusal old (EditOp.MovePars first last after) ≡ Some (Refusal.NoPar last) }
{}

/// Text that was inserted and is deleted again leaves the items as they were.
pub fn inserted_text_is_deleted()
    ensures { (at : ℕ) (text : List ℕ) (items : List Item) → at ≤ length items → without_range at (at + length text) (with_text at text items) ≡ items }
{}

/// A paragraph that was split and is joined again is as it was, whatever style its second half got.
pub fn halves_are_joined()
    ensures { (styles : List Style) (number at : ℕ) (par : Par) → with_items_of (second_half styles number at par) (first_half at par) ≡ par }
{}

/// The blocks of a section that was wrapped round them take its place when it is unwrapped.
pub fn wrapped_blocks_are_unwrapped()
    ensures { (name style : List ℕ) (blocks : List Block) → unwrapped name (section_of name style blocks) ≡ blocks }
{}

/// No operation lowers the next paragraph number.
pub fn numbers_never_fall()
    ensures { (old : Edited) (index : ℕ) (ops : List EditOp) → IfOk (edited_by old index ops) (λ new. old.next ≤ new.next) }
{}

/// A group of more than 1024 operations is refused whatever they are.
pub fn large_groups_are_refused()
    ensures { (old : Edited) (ops : List EditOp) → 1024 < length ops → edited_by_group old ops ≡ Err (1024, Refusal.Limit Operations 1024) }
{}
