//! The commands of a script.

use doc_model::{Group, Name, ParId};

/// What one line of a script asks for. Jobs are kept under names of 1 to 16 letters a to z and digits.
#[derive(Debug, Drop, PartialEq, Eq)]
pub enum ScriptCommand {
    /// Edits, all or none.
    Edit(Group),
    /// Takes the last change back.
    Undo,
    /// Does the last change that was taken back again.
    Redo,
    /// Takes, and keeps the job that is answered, if one is, under this name.
    Take(Name),
    /// Forms the lines of the job under this name, and publishes them. The job stays there.
    Publish(Name),
    /// Takes, and forms and publishes the lines of the job that is answered, if one is.
    Turn,
    /// Makes turns until nothing is left to do.
    Settle,
    /// Asks for the page of this index, from 1.
    Page(u32),
    /// Asks for the text of a paragraph.
    Text(ParId),
    /// Asks for the canonical bytes.
    Save,
    /// Asks how much idle work is left.
    Debt,
    /// Asks for the version.
    Version,
}

/// A command with the number of its line, counted from 1.
#[derive(Debug, Drop, PartialEq, Eq)]
pub struct Numbered {
    /// The number of the line.
    pub line: u32,
    /// What it asks for.
    pub command: ScriptCommand,
}
