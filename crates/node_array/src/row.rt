//! Rows, and what stands in them.

ghost use Rattle.std.specs.Prelude.{◌≡◌, IfOk};

use doc_model::{Item, Kind, Name, ParHead, SectionSource};
use run_text::RunText;
use std::alloc::AllocError;

/// A row of a node array.
#[derive(Debug, Drop)]
pub enum Row {
    /// A section begins.
    Start(SectionHead),
    /// The innermost section or note that is still open ends.
    End,
    /// A paragraph, with its items. The notes among them have no paragraphs.
    Par(ParHead, RunText<Item>),
    /// The paragraphs of a note begin. Their paragraph's row stands before it, with no row between but those of the
    /// paragraph's notes before this one.
    NoteText,
}

/// A section without its blocks. The fields are those of `Section`.
#[derive(Debug, Drop)]
pub struct SectionHead {
    /// What it is.
    pub kind: Kind,
    /// 'text:name'.
    pub name: Name,
    /// The section style ('text:style-name'), or the empty name.
    pub style: Name,
    /// Whether its paragraphs are kept from edits ('text:protected').
    pub protected: bool,
    /// Whether its paragraphs are left out of the pages ('text:display' none).
    pub hidden: bool,
    /// Where its blocks come from, if from another file.
    pub source: Option<SectionSource>,
}

impl SectionHead {
    pub fn copy(&self) -> Result<SectionHead, AllocError>
        ensures { IfOk result (λ c. c ≡ self.now) }
    {
        let name = self.name.copy()?;
        let style = self.style.copy()?;
        let source = match &self.source {
            Some(source) => Some(source.copy()?),
            None => None,
        };
        Ok(SectionHead {
            kind: self.kind,
            name,
            style,
            protected: self.protected,
            hidden: self.hidden,
            source,
        })
    }
}

impl Row {
    pub fn copy(&self) -> Result<Row, AllocError>
        ensures { IfOk result (λ c. c ≡ self.now) }
    {
        match self {
            Row::Start(head) => Ok(Row::Start(head.copy()?)),
            Row::End => Ok(Row::End),
            Row::Par(head, items) => {
                let head = head.copy()?;
                let items = items.clone()?;
                Ok(Row::Par(head, items))
            }
            Row::NoteText => Ok(Row::NoteText),
        }
    }
}
