//! The document model: paragraphs, sections, styles, lists and pages, the edits of them, and why an edit is refused.
#![tactic(auto)]

mod block;
mod copies;
mod document;
mod edit;
mod field;
mod list;
mod list_style;
mod page;
mod page_layout;
mod paragraph;
mod ranges;
mod refusal;
mod report;
mod spans;
mod style;
mod tabs;
mod texts;

pub use block::{Block, Kind, Section, SectionSource};
pub use copies::{
    copy_block, copy_blocks, copy_item, copy_items, copy_note, copy_par, copy_pars, copy_section,
    copy_what,
};
pub use document::Document;
pub use edit::{DeclKind, EditOp, Group, Pos};
pub use field::{ChapterShow, Field, Format, NoteClass, RefForm, Select, SeqForm};
pub use list::List;
pub use list_style::{LevelWhat, ListLevel, ListStyle};
pub use page::{Label, Page, PageEntry, PageTable, Pages, ParPage};
pub use page_layout::{HeadPar, Master, NoteStart, PageLayout};
pub use paragraph::{Item, ListPos, Mark, Note, Par, ParHead, ParId, What};
pub use ranges::{Distance, Length, LevelNumber, PageAdjust};
pub use refusal::{Limit, NameSort, Refusal};
pub use report::Report;
pub use spans::Spans;
pub use style::{Align, BreakAt, Family, PageStart, Prop, Props, Style};
pub use tabs::{TabStop, TabStops};
pub use texts::{Blob, Name, Txt};

#[cfg(test)]
mod tests;
