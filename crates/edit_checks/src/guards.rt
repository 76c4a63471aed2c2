//! Protected sections round paragraphs.

ghost use Rattle.std.specs.Prelude.{◌≡◌, ◌<◌, ◌≢◌, false, length, slice_get, IfOk};
ghost use Rattle.doc_model.specs.declared.document.Document.{Document};
ghost use Rattle.doc_model.specs.declared.edit.EditOp.{EditOp};
ghost use Rattle.edit_checks.specs.Alone.{GuardsAlone};
ghost use Rattle.edit_rules.specs.Places.{live_paragraph};
ghost use Rattle.edit_rules.specs.Refusals.{protected};
ghost use Rattle.node_array.specs.Rows.{rows_of};
ghost use Rattle.node_array.specs.declared.row.Row.{Row};
ghost use Rattle.paragraph_rows.specs.Flat.{AreFlat};
ghost use Rattle.paragraph_rows.specs.Standing.{AreApart};
ghost use Rattle.row_checks.specs.Guarded.{protected_row};
ghost use Rattle.row_facts.specs.Around.{is_end, open_before, sections_open};
ghost use Rattle.row_facts.specs.Paragraphs.{section_in};

use doc_model::{ParId, Refusal};
use node_array::{NodeArray, Row};
use std::alloc::AllocError;

/// The refusal by the innermost protected section round a live paragraph, of each edit that guards this paragraph alone, in
/// a document of these rows.
pub fn protected_paragraph(rows: &NodeArray, par: ParId) -> Result<Option<Refusal>, AllocError>
    requires flat { AreFlat (rows_of rows.now) }
    requires apart { AreApart (rows_of rows.now) }
    ensures { IfOk result (λ why. (doc : Document) (op : EditOp) → doc.body ≡ rows.now → live_paragraph doc par ≢ None → GuardsAlone doc op par → why ≡ protected doc op) }
{
    match rows.row_of(par) {
        None => Ok(None),
        Some(at) => protected_at(rows, at),
    }
}

// The refusal by the innermost protected section round the row at a place, which is no End row.
fn protected_at(rows: &NodeArray, at: usize) -> Result<Option<Refusal>, AllocError>
    requires in_range { at < length (rows_of rows.now) }
    requires no_end { (one : Row) → slice_get (rows_of rows.now) at ≡ Some one → is_end one ≡ false }
    ensures { IfOk result (λ why. why ≡ protected_row (sections_open (open_before at (rows_of rows.now)))) }
{
    match rows.container(at) {
        None => Ok(None),
        Some(place) => match begun(rows.row(place))? {
            Some(why) => Ok(Some(why)),
            None => protected_at(rows, place),
        },
    }
}

// The refusal by the section that a row begins, if it is protected.
fn begun(row: &Row) -> Result<Option<Refusal>, AllocError>
    ensures { IfOk result (λ why. why ≡ protected_row (section_in row.now)) }
{
    match row {
        Row::Start(head) => {
            if head.protected {
                Ok(Some(Refusal::Protected(head.name.copy()?)))
            } else {
                Ok(None)
            }
        }
        _ => Ok(None),
    }
}
