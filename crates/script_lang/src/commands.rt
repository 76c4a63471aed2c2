//! Lines that are commands.

ghost use Rattle.std.specs.Prelude.{◌≡◌, [], ◌∷◌, IfOk, IsTrue, ◌↔◌};
ghost use Rattle.desk_model.specs.Script.{IsCommandLine, IsSkipped};
ghost use Rattle.script_lang.specs.Parts.{Finds, IsWordLine, IsNumberCommand, IsNameCommand};

use crate::cuts::after;
use crate::edits::read_edit;
use crate::names::read_name;
use crate::numbers::read_number;
use desk_model::ScriptCommand;
use doc_model::{EditOp, Group, List, ParId};
use std::alloc::{AllocError, Global};

/// Whether a line is empty or a comment.
pub(crate) fn is_skipped(line: &[u8]) -> bool
    ensures { IsTrue result ↔ IsSkipped line.now }
{
    match line {
        [] => true,
        [first, ..] => *first == b'#',
    }
}

/// The command that a line is.
pub(crate) fn read_command(alloc: Global, line: &[u8]) -> Result<Option<ScriptCommand>, AllocError>
    ensures { IfOk result (Finds (IsCommandLine line.now)) }
{
    if let Some(command) = word_command(line) {
        return Ok(Some(command));
    }
    if let Some(command) = number_command(line) {
        return Ok(Some(command));
    }
    if let Some(command) = name_command(alloc, line)? {
        return Ok(Some(command));
    }
    match read_edit(alloc, line)? {
        Some(edit) => Ok(Some(ScriptCommand::Edit(group_of_one(alloc, edit)?))),
        None => Ok(None),
    }
}

/// The command of one word that a line is.
fn word_command(line: &[u8]) -> Option<ScriptCommand>
    ensures { Finds (IsWordLine line.now) result }
{
    if line == b"undo".as_slice() {
        return Some(ScriptCommand::Undo);
    }
    if line == b"redo".as_slice() {
        return Some(ScriptCommand::Redo);
    }
    if line == b"turn".as_slice() {
        return Some(ScriptCommand::Turn);
    }
    if line == b"settle".as_slice() {
        return Some(ScriptCommand::Settle);
    }
    if line == b"save".as_slice() {
        return Some(ScriptCommand::Save);
    }
    if line == b"debt".as_slice() {
        return Some(ScriptCommand::Debt);
    }
    if line == b"version".as_slice() {
        return Some(ScriptCommand::Version);
    }
    None
}

/// The command with a number that a line is.
fn number_command(line: &[u8]) -> Option<ScriptCommand>
    ensures { Finds (IsNumberCommand line.now) result }
{
    if let Some(digits) = after(line, b"page ") {
        let index = read_number(digits)?;
        return Some(ScriptCommand::Page(index));
    }
    let digits = after(line, b"text ")?;
    let par = read_number(digits)?;
    Some(ScriptCommand::Text(ParId(par)))
}

/// The command with a name that a line is.
fn name_command(alloc: Global, line: &[u8]) -> Result<Option<ScriptCommand>, AllocError>
    ensures { IfOk result (Finds (IsNameCommand line.now)) }
{
    if let Some(bytes) = after(line, b"take ") {
        return match read_name(alloc, bytes)? {
            Some(name) => Ok(Some(ScriptCommand::Take(name))),
            None => Ok(None),
        };
    }
    if let Some(bytes) = after(line, b"publish ") {
        return match read_name(alloc, bytes)? {
            Some(name) => Ok(Some(ScriptCommand::Publish(name))),
            None => Ok(None),
        };
    }
    Ok(None)
}

fn group_of_one(alloc: Global, edit: EditOp) -> Result<Group, AllocError>
    ensures { IfOk result (λ group. group.0 ≡ edit ∷ []) }
{
    let mut edits = List::new(alloc);
    edits.push(edit)?;
    Ok(Group(edits))
}
