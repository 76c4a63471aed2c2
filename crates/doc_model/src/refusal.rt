//! Why an edit is refused.

ghost use Rattle.std.specs.Prelude.{◌≡◌, IfOk};

use crate::paragraph::ParId;
use crate::texts::Name;
use std::alloc::AllocError;
use thiserror::Error;

/// What a name in a refusal names.
#[derive(Debug, Clone, Copy, PartialEq, Eq)]
pub enum NameSort {
    /// A style of any family.
    Style,
    /// A list style.
    ListStyle,
    /// A master page.
    Master,
    /// A bookmark.
    Bookmark,
    /// A section.
    Section,
    /// A sequence.
    Sequence,
    /// A variable.
    Variable,
    /// The reference name of a sequence field.
    Reference,
    /// The id of a note.
    Note,
    /// A property of a style.
    Property,
}

/// What is limited in a document or a group.
#[derive(Debug, Clone, Copy, PartialEq, Eq)]
pub enum Limit {
    /// The paragraphs of the body and the notes: 65536.
    Paragraphs,
    /// The items of one paragraph: 32768.
    ItemsOfParagraph,
    /// The items of all paragraphs: 4194304.
    Items,
    /// Sections: 8192.
    Sections,
    /// Sections within each other: 32.
    SectionDepth,
    /// Styles: 16384.
    Styles,
    /// List styles: 4096.
    ListStyles,
    /// Page layouts: 1024.
    Layouts,
    /// Master pages: 1024.
    Masters,
    /// Declared variables and sequences together: 4096.
    Declarations,
    /// The characters of a name: 1024.
    NameLength,
    /// The operations of a group: 1024.
    Operations,
    /// Paragraph numbers given: 4294967295.
    Identifiers,
}

/// Why an edit is refused.
#[derive(Debug, Drop, PartialEq, Eq, Error)]
pub enum Refusal {
    /// There is no such paragraph: the first one that the edit names.
    #[error("no such paragraph")]
    NoPar(ParId),
    /// A place is past the end of the paragraph, which has so many items.
    #[error("a place past the end of its paragraph")]
    PastEnd(ParId, u32),
    /// The first place of a range stands behind the second.
    #[error("a range that ends before it begins")]
    BadRange(u32, u32),
    /// A name that has to exist doesn't, or a new name is empty.
    #[error("no such name")]
    NoName(NameSort, Name),
    /// A new name exists.
    #[error("a name that is taken")]
    NameTaken(NameSort, Name),
    /// The paragraph stands in a protected section: the innermost one.
    #[error("a protected section")]
    Protected(Name),
    /// The style would be its own ancestor.
    #[error("a style that would be its own ancestor")]
    StyleLoop(Name),
    /// The style is in use: the first paragraph that uses it, or number 0 where only a style or a section names it.
    #[error("a style in use")]
    InUse(Name, ParId),
    /// What has to stand together doesn't: two paragraphs, the second of number 0 where there is none.
    #[error("paragraphs that do not stand together")]
    NotTogether(ParId, ParId),
    /// A character that isn't allowed: how many characters of its text stand before it.
    #[error("a character that is not allowed")]
    BadChar(u32),
    /// A level above 10, or 0 where it has to be at least 1.
    #[error("a level out of range")]
    Level(u8),
    /// The body, a section or a note would lose its last paragraph: the first one to be moved.
    #[error("the last paragraph of its container")]
    LastPar(ParId),
    /// The result would pass a limit, which is this number.
    #[error("a limit passed")]
    Limit(Limit, u32),
}

impl Refusal {
    pub fn copy(&self) -> Result<Refusal, AllocError>
        ensures { IfOk result (λ c. c ≡ self.now) }
    {
        match self {
            Refusal::NoPar(par) => Ok(Refusal::NoPar(*par)),
            Refusal::PastEnd(par, length) => Ok(Refusal::PastEnd(*par, *length)),
            Refusal::BadRange(from, to) => Ok(Refusal::BadRange(*from, *to)),
            Refusal::NoName(sort, name) => Ok(Refusal::NoName(*sort, name.copy()?)),
            Refusal::NameTaken(sort, name) => Ok(Refusal::NameTaken(*sort, name.copy()?)),
            Refusal::Protected(section) => Ok(Refusal::Protected(section.copy()?)),
            Refusal::StyleLoop(name) => Ok(Refusal::StyleLoop(name.copy()?)),
            Refusal::InUse(name, par) => Ok(Refusal::InUse(name.copy()?, *par)),
            Refusal::NotTogether(first, second) => Ok(Refusal::NotTogether(*first, *second)),
            Refusal::BadChar(offset) => Ok(Refusal::BadChar(*offset)),
            Refusal::Level(level) => Ok(Refusal::Level(*level)),
            Refusal::LastPar(par) => Ok(Refusal::LastPar(*par)),
            Refusal::Limit(limit, number) => Ok(Refusal::Limit(*limit, *number)),
        }
    }
}
