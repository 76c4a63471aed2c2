//! The first protected section in reading order.

ghost use Rattle.std.specs.Prelude.{◌≡◌, ◌∷◌, [], None, IfOk};
ghost use Rattle.std.specs.Option.{option_or};
ghost use Rattle.doc_model.specs.declared.document.Document.{Document};
ghost use Rattle.edit_checks.specs.Firsts.{first_absent};
ghost use Rattle.edit_rules.specs.Refusals.{no_paragraph, protected};
ghost use Rattle.guard_checks.specs.Among.{GuardsNamed, protected_of};
ghost use Rattle.node_array.specs.Rows.{rows_of};
ghost use Rattle.paragraph_rows.specs.Flat.{AreFlat};
ghost use Rattle.paragraph_rows.specs.Standing.{AreApart};

use crate::order::{is_before, is_first};
use doc_model::{EditOp, ParId, Refusal};
use edit_checks::protected_paragraph;
use node_array::NodeArray;
use std::alloc::AllocError;

/// The refusal by the innermost protected section round the first paragraph in reading order that has one, of an edit that
/// guards the paragraphs that it names, all of them live, in a document of these rows.
pub fn protected(rows: &NodeArray, op: &EditOp) -> Result<Option<Refusal>, AllocError>
    requires flat { AreFlat (rows_of rows.now) }
    requires apart { AreApart (rows_of rows.now) }
    requires named { GuardsNamed op.now }
    ensures { IfOk result (λ why. (doc : Document) → doc.body ≡ rows.now → no_paragraph doc op.now ≡ None → why ≡ protected doc op.now) }
{
    match op {
        EditOp::InsertText { par, .. } => of_one(rows, *par),
        EditOp::DeleteRange { par, .. } => of_two(rows, *par, *par),
        EditOp::Split { par, .. } => of_one(rows, *par),
        EditOp::Join { par } => of_one(rows, *par),
        EditOp::SetParStyle { par, .. } => of_one(rows, *par),
        EditOp::SetSpan { par, .. } => of_two(rows, *par, *par),
        EditOp::SetHeading { par, .. } => of_one(rows, *par),
        EditOp::SetList { par, .. } => of_one(rows, *par),
        EditOp::InsertField { par, .. } => of_one(rows, *par),
        EditOp::InsertNote { par, .. } => of_one(rows, *par),
        EditOp::MovePars { first, last, after } => of_three(rows, *first, *last, *after),
        EditOp::AddBookmark { from, to, .. } => of_two(rows, from.par, to.par),
        EditOp::WrapSection { first, last, .. } => of_two(rows, *first, *last),
        EditOp::RemoveBookmark { .. } => unreachable!(),
        EditOp::UnwrapSection { .. } => unreachable!(),
        EditOp::SetSection { .. } => Ok(None),
        EditOp::DefineStyle { .. } => Ok(None),
        EditOp::RemoveStyle { .. } => Ok(None),
        EditOp::SetParent { .. } => Ok(None),
        EditOp::SetProp { .. } => Ok(None),
        EditOp::AddDecl { .. } => Ok(None),
    }
}

// The refusal by the sections round one live paragraph.
fn of_one(rows: &NodeArray, par: ParId) -> Result<Option<Refusal>, AllocError>
    requires flat { AreFlat (rows_of rows.now) }
    requires apart { AreApart (rows_of rows.now) }
    ensures { IfOk result (λ why. (doc : Document) → doc.body ≡ rows.now → first_absent doc (par ∷ []) ≡ None → why ≡ protected_of doc (par.0 ∷ [])) }
{
    protected_paragraph(rows, par)
}

// The refusal by those round two.
fn of_two(rows: &NodeArray, one: ParId, other: ParId) -> Result<Option<Refusal>, AllocError>
    requires flat { AreFlat (rows_of rows.now) }
    requires apart { AreApart (rows_of rows.now) }
    ensures { IfOk result (λ why. (doc : Document) → doc.body ≡ rows.now → first_absent doc (one ∷ other ∷ []) ≡ None → why ≡ protected_of doc (one.0 ∷ other.0 ∷ [])) }
{
    if is_before(rows, one, other) {
        one_by_one(rows, one, other)
    } else {
        one_by_one(rows, other, one)
    }
}

// The refusal by those round one live paragraph, or else by those round another.
fn one_by_one(rows: &NodeArray, first: ParId, second: ParId) -> Result<Option<Refusal>, AllocError>
    requires flat { AreFlat (rows_of rows.now) }
    requires apart { AreApart (rows_of rows.now) }
    ensures { IfOk result (λ why. (doc : Document) → doc.body ≡ rows.now → first_absent doc (first ∷ []) ≡ None → first_absent doc (second ∷ []) ≡ None → why ≡ option_or (protected_of doc (first.0 ∷ [])) (protected_of doc (second.0 ∷ []))) }
{
    match of_one(rows, first)? {
        Some(why) => Ok(Some(why)),
        None => of_one(rows, second),
    }
}

// The refusal by those round three.
fn of_three(
    rows: &NodeArray,
    one: ParId,
    other: ParId,
    third: ParId,
) -> Result<Option<Refusal>, AllocError>
    requires flat { AreFlat (rows_of rows.now) }
    requires apart { AreApart (rows_of rows.now) }
    ensures { IfOk result (λ why. (doc : Document) → doc.body ≡ rows.now → first_absent doc (one ∷ other ∷ third ∷ []) ≡ None → why ≡ protected_of doc (one.0 ∷ other.0 ∷ third.0 ∷ [])) }
{
    if is_first(rows, one, other, third) {
        return one_then_two(rows, one, other, third);
    }
    if is_before(rows, other, third) {
        return one_then_two(rows, other, one, third);
    }
    one_then_two(rows, third, one, other)
}

// The refusal by those round one live paragraph, or else by those round two others.
fn one_then_two(
    rows: &NodeArray,
    first: ParId,
    one: ParId,
    other: ParId,
) -> Result<Option<Refusal>, AllocError>
    requires flat { AreFlat (rows_of rows.now) }
    requires apart { AreApart (rows_of rows.now) }
    ensures { IfOk result (λ why. (doc : Document) → doc.body ≡ rows.now → first_absent doc (first ∷ []) ≡ None → first_absent doc (one ∷ other ∷ []) ≡ None → why ≡ option_or (protected_of doc (first.0 ∷ [])) (protected_of doc (one.0 ∷ other.0 ∷ []))) }
{
    match of_one(rows, first)? {
        Some(why) => Ok(Some(why)),
        None => of_two(rows, one, other),
    }
}
