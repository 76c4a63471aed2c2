//! The dimensions of pages.

/// How many columns and rows a page has between its margins. A column is a tenth of an inch, and a row a sixth.
#[derive(Debug, Clone, Copy, PartialEq, Eq)]
pub struct Dims {
    pub columns: u32,
    pub rows: u32,
}
