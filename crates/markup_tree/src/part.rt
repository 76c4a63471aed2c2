//! The parts of a document.

/// Where in a document a construct stands.
#[derive(Debug, Clone, Copy, PartialEq, Eq)]
pub enum Part {
    /// At the start, where an XML declaration may stand.
    Start,
    /// Before the root.
    Before,
    /// In the root.
    Inside,
    /// Behind the root.
    After,
}
