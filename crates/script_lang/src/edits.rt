//! Lines that are edits.

ghost use Rattle.std.specs.Prelude.{◌≡◌, ℕ, List, ◌++◌, codes, IfOk, MatchOption};
ghost use Rattle.desk_model.specs.Script.{IsEditLine};
ghost use Rattle.script_lang.specs.Parts.{Finds, IsInsertion};

use crate::cuts::after;
use crate::numbers::{number_before_space, read_number};
use crate::texts::{between_quotes, read_text};
use doc_model::{EditOp, ParId};
use std::alloc::{AllocError, Global};

/// The edit that a line asks for.
pub(crate) fn read_edit(alloc: Global, line: &[u8]) -> Result<Option<EditOp>, AllocError>
    ensures { IfOk result (Finds (IsEditLine line.now)) }
{
    if let Some(bytes) = after(line, b"insert ") {
        return read_insertion(alloc, bytes);
    }
    match after(line, b"delete ") {
        Some(bytes) => Ok(read_deletion(bytes)),
        None => Ok(None),
    }
}

/// The insertion that follows `insert `.
fn read_insertion(alloc: Global, bytes: &[u8]) -> Result<Option<EditOp>, AllocError>
    ensures { IfOk result (Finds (IsEditLine (codes "insert " ++ bytes.now))) }
{
    match insertion_parts(bytes) {
        Some((par, at, inside)) => match read_text(alloc, inside)? {
            Some(text) => Ok(Some(EditOp::InsertText {
                par: ParId(par),
                at,
                text,
            })),
            None => Ok(None),
        },
        None => Ok(None),
    }
}

/// The number of a paragraph, a place in it and what stands in quotes.
fn insertion_parts(bytes: &[u8]) -> Option<(u32, u32, &[u8])>
    ensures { MatchOption result ((par at : ℕ) (inside : List ℕ) → IsInsertion bytes.now par at inside → ⊥)
        (λ parts. IsInsertion bytes.now parts.0 parts.1 parts.2.now) }
{
    let (par, rest) = number_before_space(bytes)?;
    let (at, rest) = number_before_space(rest)?;
    let inside = between_quotes(rest)?;
    Some((par, at, inside))
}

/// The deletion that follows `delete `.
fn read_deletion(bytes: &[u8]) -> Option<EditOp>
    ensures { Finds (IsEditLine (codes "delete " ++ bytes.now)) result }
{
    let (par, rest) = number_before_space(bytes)?;
    let (from, rest) = number_before_space(rest)?;
    let to = read_number(rest)?;
    Some(EditOp::DeleteRange {
        par: ParId(par),
        from,
        to,
    })
}
