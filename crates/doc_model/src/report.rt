//! What the reader of a file tells about it.

/// What the reader of a file left out. Each count stops at 4294967295.
#[derive(Debug, Clone, Copy, PartialEq, Eq)]
pub struct Report {
    /// Elements that aren't read.
    pub elements: u32,
    /// Attributes that aren't read, or have a bad value.
    pub attributes: u32,
    /// Section sources that aren't there.
    pub sources: u32,
}
