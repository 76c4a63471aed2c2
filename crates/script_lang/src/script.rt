//! Scripts.

ghost use Rattle.std.specs.Prelude.{◌≡◌, ℕ, List, ◌<◌, ◌^◌, length, IfOk, OnOk, IfErr};
ghost use Rattle.desk_model.specs.Script.{IsScript, IsFirstBadLine, IsBadLine};
ghost use Rattle.script_lang.specs.Fault.{OnBadLine};
ghost use Rattle.script_lang.specs.Parts.{AddsLine};
ghost use Rattle.desk_model.specs.declared.script.Numbered.{Numbered};

use crate::commands::{is_skipped, read_command};
use crate::cuts::next_line;
use desk_model::Numbered;
use doc_model::List;
use std::alloc::{AllocError, Global};
use thiserror::Error;

/// Why no script is read.
#[derive(Debug, Drop, PartialEq, Eq, Error)]
pub enum ScriptFault {
    /// The line of this number, counted from 1, is the first that is neither skipped nor a command.
    #[error("line {0} is no command")]
    BadLine(u32),
    /// There was not enough memory.
    #[error("not enough memory")]
    NoMemory,
}

impl From<AllocError> for ScriptFault {
    ghost use Rattle.script_lang.specs.declared.script.ScriptFault.TheVariants.{NoMemory};

    ghost from_gives = { λ _ fault. fault ≡ NoMemory };

    fn from(_: AllocError) -> ScriptFault {
        ScriptFault::NoMemory
    }
}

/// Reads a script: one command a line, with the numbers of the lines, counted from 1.
///
/// A line is one of these, in just these spaces. P is a paragraph's number; A, F and T count its items before a place;
/// N is a page's index from 1; NAME is one to sixteen letters a to z and digits.
///
/// - `insert P A "text"` and `delete P F T`, `undo` and `redo`;
/// - `take NAME` and `publish NAME`, `turn` and `settle`;
/// - `page N`, `text P`, `save`, `debt` and `version`.
///
/// In a text `\"`, `\\`, `\n`, `\t` and `\u{H}`, with one to six hexadecimal digits in either case, stand for characters. A
/// line whose text is empty, or has any character but those of U+20 to U+7E, is no command.
///
/// Empty lines and lines that begin with `#` are skipped. A line ends with a line feed, with or without a carriage return
/// before it; the last one may do without.
pub fn read_script(alloc: Global, bytes: &[u8]) -> Result<List<Numbered>, ScriptFault>
    requires short { length bytes.now < 2 ^ 32 }
    ensures found { IfOk result (λ script. IsScript bytes.now script) }
    ensures only { IfOk result (λ script. (other : List Numbered) → IsScript bytes.now other → other ≡ script) }
    ensures bad { IfErr result (OnBadLine (λ number. IsFirstBadLine bytes.now number)) }
    ensures none { IfErr result (OnBadLine (λ _. (script : List Numbered) → IsScript bytes.now script → ⊥)) }
{
    let mut commands = List::new(alloc);
    let mut rest = bytes;
    let mut number = 0;
    'lines: while let Some((line, after)) = next_line(rest) {
        number += 1;
        push_line(alloc, line, number, &mut commands)?;
        rest = after;
    }
    Ok(commands)
}

/// Adds the command of the line with this number, or nothing for a line that is skipped.
fn push_line(
    alloc: Global,
    line: &[u8],
    number: u32,
    commands: &mut List<Numbered>,
) -> Result<(), ScriptFault>
    ensures ok { OnOk result (AddsLine number line.now commands.old commands.new) }
    ensures bad { IfErr result (OnBadLine (λ other. (other ≡ number) × IsBadLine line.now)) }
{
    if is_skipped(line) {
        return Ok(());
    }
    match read_command(alloc, line)? {
        Some(command) => {
            commands.push(Numbered {
                line: number,
                command,
            })?;
            Ok(())
        }
        None => Err(ScriptFault::BadLine(number)),
    }
}
