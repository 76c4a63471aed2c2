//! The operations by which a document is edited.

ghost use Rattle.std.specs.Prelude.{◌≡◌, IfOk};

use crate::copies::copy_option;
use crate::field::{Field, NoteClass};
use crate::list::List;
use crate::paragraph::{ListPos, ParId};
use crate::style::{Family, Prop, Style};
use crate::texts::{Name, Txt};
use std::alloc::AllocError;

/// A place in a paragraph.
#[derive(Debug, Clone, Copy, PartialEq, Eq)]
pub struct Pos {
    /// The paragraph.
    pub par: ParId,
    /// How many of its items stand before the place.
    pub at: u32,
}

/// What a declaration declares.
#[derive(Debug, Clone, Copy, PartialEq, Eq)]
pub enum DeclKind {
    /// 'text:sequence-decl'.
    Sequence,
    /// 'text:variable-decl'.
    Variable,
}

/// One edit. `at`, `from` and `to` count the items of a paragraph that stand before the place.
#[derive(Debug, Drop, PartialEq, Eq)]
pub enum EditOp {
    /// Items for the characters of `text` at `at`, with the spans of the item before. U+9 is a tab and U+A a break.
    InsertText {
        par: ParId,
        at: u32,
        text: Txt,
    },
    /// Removes the items from `from` to `to`, but for marks. A note goes with its paragraphs.
    DeleteRange {
        par: ParId,
        from: u32,
        to: u32,
    },
    /// The items from `at` on go into a new paragraph behind this one.
    Split {
        par: ParId,
        at: u32,
    },
    /// Takes the items of the next block, which has to be a paragraph.
    Join {
        par: ParId,
    },
    /// Moves the blocks from `first` to `last` behind `after`.
    MovePars {
        first: ParId,
        last: ParId,
        after: ParId,
    },
    /// Gives the paragraph a paragraph style, or none by the empty name.
    SetParStyle {
        par: ParId,
        style: Name,
    },
    /// Makes this text style the one span of each item of the range, or none by the empty name.
    SetSpan {
        par: ParId,
        from: u32,
        to: u32,
        style: Name,
    },
    /// Makes it a heading of this level, 1 to 10, or by 0 none.
    SetHeading {
        par: ParId,
        level: u8,
    },
    /// Gives it a place in a list, or none.
    SetList {
        par: ParId,
        list: Option<ListPos>,
    },
    /// A field at `at`.
    InsertField {
        par: ParId,
        at: u32,
        field: Field,
    },
    /// A note with one empty paragraph at `at`. The id may be empty.
    InsertNote {
        par: ParId,
        at: u32,
        class: NoteClass,
        id: Name,
    },
    /// A bookmark: a point where the places are equal, else a start and an end.
    AddBookmark {
        name: Name,
        from: Pos,
        to: Pos,
    },
    /// Removes the marks of a bookmark.
    RemoveBookmark {
        name: Name,
    },
    /// Makes the blocks from that of `first` to that of `last` a section, with a section style or none by the empty name.
    WrapSection {
        first: ParId,
        last: ParId,
        name: Name,
        style: Name,
    },
    /// The blocks of a section take its place.
    UnwrapSection {
        name: Name,
    },
    /// Protects and hides a section, or doesn't.
    SetSection {
        name: Name,
        protected: bool,
        hidden: bool,
    },
    /// A new style, the last of those that are not automatic.
    DefineStyle {
        style: Style,
    },
    /// Removes a style that nothing names.
    RemoveStyle {
        family: Family,
        name: Name,
    },
    /// Gives a style a parent of its family, or none by the empty name.
    SetParent {
        family: Family,
        name: Name,
        parent: Name,
    },
    /// States or unstates one property of a style.
    SetProp {
        family: Family,
        name: Name,
        prop: Prop,
    },
    /// Declares a sequence or a variable, behind those declared.
    AddDecl {
        kind: DeclKind,
        name: Name,
    },
}

/// Edits that are done one after another, or none of them.
#[derive(Debug, Drop, PartialEq, Eq)]
pub struct Group(pub List<EditOp>);

impl EditOp {
    pub fn copy(&self) -> Result<EditOp, AllocError>
        ensures { IfOk result (λ c. c ≡ self.now) }
    {
        match self {
            EditOp::InsertText { par, at, text } => Ok(EditOp::InsertText {
                par: *par,
                at: *at,
                text: text.copy()?,
            }),
            EditOp::DeleteRange { par, from, to } => Ok(EditOp::DeleteRange {
                par: *par,
                from: *from,
                to: *to,
            }),
            EditOp::Split { par, at } => Ok(EditOp::Split { par: *par, at: *at }),
            EditOp::Join { par } => Ok(EditOp::Join { par: *par }),
            EditOp::MovePars { first, last, after } => Ok(EditOp::MovePars {
                first: *first,
                last: *last,
                after: *after,
            }),
            EditOp::SetParStyle { par, style } => Ok(EditOp::SetParStyle {
                par: *par,
                style: style.copy()?,
            }),
            EditOp::SetSpan {
                par,
                from,
                to,
                style,
            } => Ok(EditOp::SetSpan {
                par: *par,
                from: *from,
                to: *to,
                style: style.copy()?,
            }),
            EditOp::SetHeading { par, level } => Ok(EditOp::SetHeading {
                par: *par,
                level: *level,
            }),
            EditOp::SetList { par, list } => Ok(EditOp::SetList {
                par: *par,
                list: copy_option(list)?,
            }),
            EditOp::InsertField { par, at, field } => Ok(EditOp::InsertField {
                par: *par,
                at: *at,
                field: field.copy()?,
            }),
            EditOp::InsertNote { par, at, class, id } => Ok(EditOp::InsertNote {
                par: *par,
                at: *at,
                class: *class,
                id: id.copy()?,
            }),
            EditOp::AddBookmark { name, from, to } => Ok(EditOp::AddBookmark {
                name: name.copy()?,
                from: *from,
                to: *to,
            }),
            EditOp::RemoveBookmark { name } => Ok(EditOp::RemoveBookmark { name: name.copy()? }),
            EditOp::WrapSection {
                first,
                last,
                name,
                style,
            } => Ok(EditOp::WrapSection {
                first: *first,
                last: *last,
                name: name.copy()?,
                style: style.copy()?,
            }),
            EditOp::UnwrapSection { name } => Ok(EditOp::UnwrapSection { name: name.copy()? }),
            EditOp::SetSection {
                name,
                protected,
                hidden,
            } => Ok(EditOp::SetSection {
                name: name.copy()?,
                protected: *protected,
                hidden: *hidden,
            }),
            EditOp::DefineStyle { style } => Ok(EditOp::DefineStyle {
                style: style.copy()?,
            }),
            EditOp::RemoveStyle { family, name } => Ok(EditOp::RemoveStyle {
                family: *family,
                name: name.copy()?,
            }),
            EditOp::SetParent {
                family,
                name,
                parent,
            } => Ok(EditOp::SetParent {
                family: *family,
                name: name.copy()?,
                parent: parent.copy()?,
            }),
            EditOp::SetProp { family, name, prop } => Ok(EditOp::SetProp {
                family: *family,
                name: name.copy()?,
                prop: prop.copy()?,
            }),
            EditOp::AddDecl { kind, name } => Ok(EditOp::AddDecl {
                kind: *kind,
                name: name.copy()?,
            }),
        }
    }
}

impl Clone for EditOp {
    ghost is_clone = { λ x y. y ≡ x };

    fn clone(&self) -> Result<EditOp, AllocError> {
        self.copy()
    }
}

impl Group {
    pub fn copy(&self) -> Result<Group, AllocError>
        ensures { IfOk result (λ c. c ≡ self.now) }
    {
        Ok(Group(self.0.copy()?))
    }
}
