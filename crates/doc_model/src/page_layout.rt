//! Page layouts and master pages.

ghost use Rattle.std.specs.Prelude.{◌≡◌, IfOk};

use crate::copies::copy_what;
use crate::list::List;
use crate::paragraph::What;
use crate::ranges::Length;
use crate::texts::Name;
use std::alloc::AllocError;

/// The size and margins of a page ('style:page-layout'). `None` is unstated.
#[derive(Debug, Drop, PartialEq, Eq)]
pub struct PageLayout {
    /// 'style:name'.
    pub name: Name,
    /// 'fo:page-width'.
    pub width: Option<Length>,
    /// 'fo:page-height'.
    pub height: Option<Length>,
    /// 'fo:margin-left'.
    pub left: Option<Length>,
    /// 'fo:margin-right'.
    pub right: Option<Length>,
    /// 'fo:margin-top'.
    pub top: Option<Length>,
    /// 'fo:margin-bottom'.
    pub bottom: Option<Length>,
}

/// A master page ('style:master-page').
#[derive(Debug, Drop)]
pub struct Master {
    /// 'style:name'.
    pub name: Name,
    /// 'style:page-layout-name', or the empty name.
    pub layout: Name,
    /// The master of the page after it ('style:next-style-name'), or the empty name for the same.
    pub next: Name,
    /// The paragraphs of 'style:header'.
    pub header: List<HeadPar>,
    /// The paragraphs of 'style:footer'.
    pub footer: List<HeadPar>,
}

/// A paragraph of a header or footer.
#[derive(Debug, Drop)]
pub struct HeadPar {
    /// What it holds: characters, tabs, breaks, and page number, page count and chapter fields.
    pub items: List<What>,
}

/// Where the counting of footnotes starts again ('text:start-numbering-at').
#[derive(Debug, Clone, Copy, PartialEq, Eq)]
pub enum NoteStart {
    /// Nowhere: they are counted through the document.
    Document,
    /// At each chapter.
    Chapter,
    /// At each page.
    Page,
}

impl PageLayout {
    pub fn copy(&self) -> Result<PageLayout, AllocError>
        ensures { IfOk result (λ c. c ≡ self.now) }
    {
        Ok(PageLayout {
            name: self.name.copy()?,
            width: self.width,
            height: self.height,
            left: self.left,
            right: self.right,
            top: self.top,
            bottom: self.bottom,
        })
    }
}

impl Clone for PageLayout {
    ghost is_clone = { λ x y. y ≡ x };

    fn clone(&self) -> Result<PageLayout, AllocError> {
        self.copy()
    }
}

impl Master {
    pub fn copy(&self) -> Result<Master, AllocError>
        ensures { IfOk result (λ c. c ≡ self.now) }
    {
        let name = self.name.copy()?;
        let layout = self.layout.copy()?;
        let next = self.next.copy()?;
        let header = self.header.copy()?;
        let footer = self.footer.copy()?;
        Ok(Master {
            name,
            layout,
            next,
            header,
            footer,
        })
    }
}

impl Clone for Master {
    ghost is_clone = { λ x y. y ≡ x };

    fn clone(&self) -> Result<Master, AllocError> {
        self.copy()
    }
}

impl HeadPar {
    pub fn copy(&self) -> Result<HeadPar, AllocError>
        ensures { IfOk result (λ c. c ≡ self.now) }
    {
        let alloc = self.items.allocator();
        let whats = self.items.get();
        let mut copies = Vec::with_capacity(alloc, whats.len())?;
        for what in whats {
            copies.push(copy_what(alloc, what)?)?;
        }
        Ok(HeadPar {
            items: List::from_list(copies),
        })
    }
}

impl Clone for HeadPar {
    ghost is_clone = { λ x y. y ≡ x };

    fn clone(&self) -> Result<HeadPar, AllocError> {
        self.copy()
    }
}
