//! Blocks: what the body and the sections of a document are made of.

ghost use Rattle.std.specs.Prelude.{◌≡◌, IfOk};

use crate::paragraph::Par;
use crate::texts::Name;
use sqlite_items::Items;
use std::alloc::AllocError;

/// A paragraph or a section.
#[cycle(block)]
#[derive(Debug, Drop)]
pub enum Block {
    /// A paragraph or a heading.
    Par(Par),
    /// A section with its blocks.
    Section(Section),
}

/// A section ('text:section'), or what is kept as one.
#[cycle(block)]
#[derive(Debug, Drop)]
pub struct Section {
    /// What it is.
    pub kind: Kind,
    /// 'text:name'.
    pub name: Name,
    /// The section style ('text:style-name'), or the empty name.
    pub style: Name,
    /// Whether its paragraphs are kept from edits ('text:protected').
    pub protected: bool,
    /// Whether its paragraphs are left out of the pages ('text:display' none).
    pub hidden: bool,
    /// Where its blocks come from, if from another file.
    pub source: Option<SectionSource>,
    /// Its blocks in reading order, at least one.
    pub blocks: Items<Block>,
}

/// Where the blocks of a section come from ('text:section-source').
#[derive(Debug, Drop, PartialEq, Eq)]
pub struct SectionSource {
    /// The other file ('xlink:href'), as written.
    pub href: Name,
    /// The section of that file ('text:section-name'); the empty name means its whole body.
    pub section: Name,
}

/// What a section is.
#[derive(Debug, Clone, Copy, PartialEq, Eq)]
pub enum Kind {
    /// A section.
    Plain,
    /// A table of contents ('text:table-of-content') of headings up to this level, 1 to 10.
    Index(u8),
    /// A table ('table:table'), whose blocks are rows.
    Table,
    /// A row ('table:table-row'), whose blocks are cells.
    Row,
    /// A cell ('table:table-cell') that spans this many columns
    /// ('table:number-columns-spanned'), 1 to 1024.
    Cell(u32),
}

impl SectionSource {
    pub fn copy(&self) -> Result<SectionSource, AllocError>
        ensures { IfOk result (λ c. c ≡ self.now) }
    {
        let href = self.href.copy()?;
        let section = self.section.copy()?;
        Ok(SectionSource { href, section })
    }
}

impl Clone for SectionSource {
    ghost is_clone = { λ x y. y ≡ x };

    fn clone(&self) -> Result<SectionSource, AllocError> {
        self.copy()
    }
}
