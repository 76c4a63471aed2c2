//! The commands of the desk.

use doc_model::{Group, ParId};
use line_model::Formed;

/// What the desk is asked for.
#[derive(Debug, Drop)]
pub enum Command {
    /// Edits, all or none.
    Edit(Group),
    /// Takes the last change back.
    Undo,
    /// Does the last change that was taken back again.
    Redo,
    /// Passes a stop of the idle work, or asks for the job that stands there.
    Take,
    /// Hands in the lines of a job.
    Publish(Formed),
    /// Asks for the page of this index, from 1.
    Page(u32),
    /// Asks for the text of a paragraph.
    Text(ParId),
    /// Asks for the canonical bytes.
    Save,
    /// Asks how much idle work is left.
    Debt,
    /// Asks for the version.
    Version,
}
