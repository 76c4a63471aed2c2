//! Pages and what is known of them.

ghost use Rattle.std.specs.Prelude.{◌≡◌, IfOk, IsTrue, ◌↔◌};

use crate::list::List;
use crate::paragraph::ParId;
use crate::texts::Txt;
use std::alloc::AllocError;

/// A page, ready to be printed.
#[derive(Debug, Drop, PartialEq, Eq)]
pub struct Page {
    /// Its place among the pages, from 1.
    pub index: u32,
    /// Its number, which styles may set.
    pub number: u32,
    /// Its rows from the top.
    pub rows: List<Txt>,
}

/// The pages of a document.
#[derive(Debug, Drop, PartialEq, Eq)]
pub struct Pages {
    /// The pages in order.
    pub pages: List<Page>,
    /// Whether a further round would leave them as they are.
    pub settled: bool,
}

/// What a page table knows of a page.
#[derive(Debug, Clone, Copy, PartialEq, Eq)]
pub struct PageEntry {
    /// Its number.
    pub number: u32,
    /// Its columns.
    pub columns: u32,
}

/// The page on which the first row of a paragraph stands.
#[derive(Debug, Clone, Copy, PartialEq, Eq)]
pub struct ParPage {
    /// The paragraph.
    pub par: ParId,
    /// The index of the page, from 1.
    pub page: u32,
}

/// The pages of a round, as the fields of the next round see them.
#[derive(Debug, Drop, PartialEq, Eq)]
pub struct PageTable {
    /// The pages in order.
    pub pages: List<PageEntry>,
    /// The paragraphs that have a page, in the order in which they are set.
    pub pars: List<ParPage>,
}

/// The label of a list item or a heading.
#[derive(Debug, Drop, PartialEq, Eq)]
pub struct Label {
    /// The label.
    pub full: Txt,
    /// The label without prefix and suffix.
    pub plain: Txt,
}

impl Page {
    pub fn copy(&self) -> Result<Page, AllocError>
        ensures { IfOk result (λ c. c ≡ self.now) }
    {
        Ok(Page {
            index: self.index,
            number: self.number,
            rows: self.rows.copy()?,
        })
    }
}

impl Clone for Page {
    ghost is_clone = { λ x y. y ≡ x };

    fn clone(&self) -> Result<Page, AllocError> {
        self.copy()
    }
}

impl Pages {
    pub fn copy(&self) -> Result<Pages, AllocError>
        ensures { IfOk result (λ c. c ≡ self.now) }
    {
        Ok(Pages {
            pages: self.pages.copy()?,
            settled: self.settled,
        })
    }
}

impl PageTable {
    pub fn copy(&self) -> Result<PageTable, AllocError>
        ensures { IfOk result (λ c. c ≡ self.now) }
    {
        let pages = List::from_slice(self.pages.allocator(), self.pages.get())?;
        let pars = List::from_slice(self.pars.allocator(), self.pars.get())?;
        Ok(PageTable { pages, pars })
    }

    pub fn is_same(&self, other: &PageTable) -> bool
        ensures { IsTrue result ↔ (self.now ≡ other.now) }
    {
        if !self.pages.is_same(&other.pages) {
            return false;
        }
        self.pars.is_same(&other.pars)
    }
}

impl Label {
    pub fn copy(&self) -> Result<Label, AllocError>
        ensures { IfOk result (λ c. c ≡ self.now) }
    {
        let full = self.full.copy()?;
        let plain = self.plain.copy()?;
        Ok(Label { full, plain })
    }

    pub fn is_same(&self, other: &Label) -> bool
        ensures { IsTrue result ↔ (self.now ≡ other.now) }
    {
        if !self.full.is_same(&other.full) {
            return false;
        }
        self.plain.is_same(&other.plain)
    }
}
