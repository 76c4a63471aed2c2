//! What the breaking of pages reads of master pages.

use doc_model::List;

/// What the breaking of pages reads of a master page and its layout.
#[derive(Debug, Clone, Copy)]
pub struct Frame {
    /// The columns of its pages.
    pub columns: u32,
    /// The rows of its pages without those of header and footer, and at least four.
    pub room: u32,
    /// The place of the master of the page behind one with this master, among the masters, from 0.
    pub next: Option<usize>,
}

/// What it reads of all master pages.
#[derive(Debug, Drop)]
pub struct Frames {
    /// For each master in order.
    pub each: List<Frame>,
    /// For a page without a master.
    pub bare: Frame,
    /// The place of the master of a first page whose paragraph states none.
    pub first: Option<usize>,
}
