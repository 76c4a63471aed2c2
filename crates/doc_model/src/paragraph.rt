//! Paragraphs and headings, and the items that they hold.

ghost use Rattle.std.specs.Prelude.{◌≡◌, IfOk, IsTrue, ◌↔◌};

use crate::copies::copy_option;
use crate::field::{Field, NoteClass};
use crate::spans::Spans;
use crate::texts::Name;
use sqlite_items::{Boxed, Items};
use std::alloc::{AllocError, Global};
use std::default::MadeWith;

/// The number of a paragraph. The paragraphs of a loaded document are numbered from 1 in reading order;
/// a number that was given once is never given to another paragraph.
#[derive(Debug, Clone, Copy, PartialEq, Eq)]
pub struct ParId(pub u32);

/// The place of a paragraph in a list ('text:list' and 'text:list-item').
#[derive(Debug, Drop, PartialEq, Eq)]
pub struct ListPos {
    /// The list style ('text:style-name' of 'text:list'), or the empty name.
    pub style: Name,
    /// How many lists are round the paragraph, 1 to 10.
    pub level: u8,
    /// Whether the paragraph is the first of its list item, and so has a label.
    pub item: bool,
    /// Whether counting starts again here.
    pub fresh: bool,
}

/// A paragraph ('text:p') or a heading ('text:h').
#[cycle(par)]
#[derive(Debug, Drop)]
pub struct Par {
    /// The paragraph's number, at least 1.
    pub id: ParId,
    /// The paragraph style ('text:style-name'), or the empty name.
    pub style: Name,
    /// The heading level ('text:outline-level'), 1 to 10; 0 is no heading.
    pub level: u8,
    /// The place in a list, if it stands in one.
    pub list: Option<ListPos>,
    /// What it holds, in reading order. Places in a paragraph count these, from 0.
    pub items: Items<Item>,
}

/// One item of a paragraph, with the text styles round it.
#[cycle(par)]
#[derive(Debug, Drop)]
pub struct Item {
    /// The text styles round it, at most 8.
    pub spans: Spans,
    /// What it is.
    pub what: What,
}

/// What an item is.
#[cycle(par)]
#[derive(Debug, Drop)]
pub enum What {
    /// A character from U+20 up.
    Char(char),
    /// 'text:tab'.
    Tab,
    /// 'text:line-break'.
    Break,
    /// A field. It stands apart, so that a character needs little room.
    Field(Boxed<Field>),
    /// A note, cited at this place.
    Note(Boxed<Note>),
    /// An end of a bookmark, or a whole one.
    Mark(Boxed<Mark>),
}

/// A footnote or an endnote ('text:note').
#[cycle(par)]
#[derive(Debug, Drop)]
pub struct Note {
    /// 'text:id', or the empty name.
    pub id: Name,
    /// 'text:note-class'.
    pub class: NoteClass,
    /// The paragraphs of 'text:note-body', at least one.
    pub pars: Items<Par>,
}

/// A mark of a bookmark, which has a point, or a start and an end.
#[derive(Debug, Drop, PartialEq, Eq)]
pub enum Mark {
    /// 'text:bookmark': the bookmark is this place. Its 'text:name'.
    Point(Name),
    /// 'text:bookmark-start': the bookmark begins here. Its 'text:name'.
    Start(Name),
    /// 'text:bookmark-end': the bookmark ends here. Its 'text:name'.
    End(Name),
}

/// A paragraph without its items. The fields are those of `Par`.
#[derive(Debug, Drop, PartialEq, Eq)]
pub struct ParHead {
    /// The paragraph's number.
    pub id: ParId,
    /// The paragraph style, or the empty name.
    pub style: Name,
    /// The heading level; 0 is no heading.
    pub level: u8,
    /// The place in a list, if it stands in one.
    pub list: Option<ListPos>,
}

/// An item that takes no memory, for places of a list that nobody reads.
impl MadeWith<Global> for Item {
    fn made_with(alloc: Global) -> Item {
        Item {
            spans: Spans::none(alloc),
            what: What::Tab,
        }
    }
}

impl ListPos {
    pub fn copy(&self) -> Result<ListPos, AllocError>
        ensures { IfOk result (λ c. c ≡ self.now) }
    {
        Ok(ListPos {
            style: self.style.copy()?,
            level: self.level,
            item: self.item,
            fresh: self.fresh,
        })
    }

    pub fn is_same(&self, other: &ListPos) -> bool
        ensures { IsTrue result ↔ (self.now ≡ other.now) }
    {
        if !self.style.is_same(&other.style) {
            return false;
        }
        if self.level != other.level {
            return false;
        }
        if self.item != other.item {
            return false;
        }
        self.fresh == other.fresh
    }
}

impl Clone for ListPos {
    ghost is_clone = { λ x y. y ≡ x };

    fn clone(&self) -> Result<ListPos, AllocError> {
        self.copy()
    }
}

impl Mark {
    pub fn copy(&self) -> Result<Mark, AllocError>
        ensures { IfOk result (λ c. c ≡ self.now) }
    {
        match self {
            Mark::Point(name) => Ok(Mark::Point(name.copy()?)),
            Mark::Start(name) => Ok(Mark::Start(name.copy()?)),
            Mark::End(name) => Ok(Mark::End(name.copy()?)),
        }
    }

    pub fn is_same(&self, other: &Mark) -> bool
        ensures { IsTrue result ↔ (self.now ≡ other.now) }
    {
        match (self, other) {
            (Mark::Point(name), Mark::Point(given)) => name.is_same(given),
            (Mark::Start(name), Mark::Start(given)) => name.is_same(given),
            (Mark::End(name), Mark::End(given)) => name.is_same(given),
            _ => false,
        }
    }
}

impl ParHead {
    pub fn copy(&self) -> Result<ParHead, AllocError>
        ensures { IfOk result (λ c. c ≡ self.now) }
    {
        let style = self.style.copy()?;
        let list = copy_option(&self.list)?;
        Ok(ParHead {
            id: self.id,
            style,
            level: self.level,
            list,
        })
    }
}
