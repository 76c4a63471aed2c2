//! The units that lines are cut between.

/// An extended grapheme cluster of a text (UAX 29), the least piece that a line may end behind.
#[derive(Debug, Clone, Copy, PartialEq, Eq)]
pub struct TextUnit {
    /// The place of its first byte.
    pub from: u32,
    /// The place behind its last byte.
    pub to: u32,
    /// How many columns it takes.
    pub columns: u32,
    /// What it is for the cutting of lines.
    pub class: UnitClass,
}

/// What a unit is for the cutting of lines.
#[derive(Debug, Clone, Copy, PartialEq, Eq)]
pub enum UnitClass {
    /// U+20 or U+9 alone.
    Space,
    /// A `-` alone.
    Hyphen,
    /// Any other.
    Other,
}
