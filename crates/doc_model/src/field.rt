//! Fields: items whose text is computed from the document and its pages.

ghost use Rattle.std.specs.Prelude.{◌≡◌, IfOk};

use crate::ranges::PageAdjust;
use crate::texts::{Name, Txt};
use std::alloc::AllocError;

/// How a number is shown ('style:num-format').
#[derive(Debug, Clone, Copy, PartialEq, Eq)]
pub enum Format {
    /// `1`: decimal digits.
    Digits,
    /// `a`: a to z, then aa, ab.
    LowerLetter,
    /// `A`: A to Z, then AA, AB.
    UpperLetter,
    /// `i`: small roman numbers.
    LowerRoman,
    /// `I`: large roman numbers.
    UpperRoman,
    /// The empty format: the number isn't shown.
    Empty,
}

/// What a chapter field shows of its heading ('text:display' of 'text:chapter').
#[derive(Debug, Clone, Copy, PartialEq, Eq)]
pub enum ChapterShow {
    /// `name`: the heading's text.
    Name,
    /// `number`: its label.
    Number,
    /// `plain-number`: its label without prefix and suffix.
    PlainNumber,
    /// `number-and-name`: label and text.
    NumberAndName,
    /// `plain-number-and-name`: the label without prefix and suffix, and the text.
    PlainNumberAndName,
}

/// The page whose number a page number field shows ('text:select-page').
#[derive(Debug, Clone, Copy, PartialEq, Eq)]
pub enum Select {
    /// The page before that of the field.
    Previous,
    /// The page of the field.
    Current,
    /// The page after that of the field.
    Next,
}

/// What a reference shows of its target ('text:reference-format').
#[derive(Debug, Clone, Copy, PartialEq, Eq)]
pub enum RefForm {
    /// `text`: the target's text.
    Text,
    /// `page`: the number of its page.
    Page,
    /// `chapter`: the label of the last heading at or before it.
    Chapter,
    /// `direction`: above or below.
    Direction,
}

/// What a reference to a sequence field shows ('text:reference-format' of 'text:sequence-ref').
#[derive(Debug, Clone, Copy, PartialEq, Eq)]
pub enum SeqForm {
    /// `text`: the target's whole paragraph.
    Text,
    /// `page`: the number of its page.
    Page,
    /// `chapter`: the label of the last heading at or before it.
    Chapter,
    /// `direction`: above or below.
    Direction,
    /// `value`: its number.
    Value,
    /// `category-and-value`: its paragraph up to and with the number.
    CategoryAndValue,
    /// `caption`: its paragraph after the number.
    Caption,
}

/// Where a note is set ('text:note-class').
#[derive(Debug, Clone, Copy, PartialEq, Eq)]
pub enum NoteClass {
    /// At the foot of the page of its citation.
    Footnote,
    /// Behind the body.
    Endnote,
}

/// An item whose text is computed.
#[derive(Debug, Drop, PartialEq, Eq)]
pub enum Field {
    /// 'text:sequence': the count of sequence fields of this name in reading order, this one included.
    Sequence {
        /// 'text:name': a declared sequence.
        name: Name,
        /// 'text:ref-name': what sequence references call this field, or the empty name.
        refname: Name,
        /// 'style:num-format'.
        format: Format,
    },
    /// 'text:variable-set': sets a variable from here on, and shows the value.
    VarSet {
        /// 'text:name': a declared variable.
        name: Name,
        /// The content of the element.
        value: Txt,
    },
    /// 'text:variable-get': the value of a variable at this place.
    VarGet {
        /// 'text:name': a declared variable.
        name: Name,
    },
    /// 'text:chapter': what is shown of the last heading of at most this level.
    Chapter {
        /// 'text:display'.
        display: ChapterShow,
        /// 'text:outline-level', 1 to 10.
        level: u8,
    },
    /// 'text:page-number'.
    PageNumber {
        /// 'text:select-page'.
        select: Select,
        /// 'text:page-adjust': pages added to the index of the page.
        adjust: PageAdjust,
        /// 'style:num-format'.
        format: Format,
    },
    /// 'text:page-count': how many pages there are.
    PageCount {
        /// 'style:num-format'.
        format: Format,
    },
    /// 'text:bookmark-ref'.
    BookRef {
        /// 'text:ref-name': the name of a bookmark, which need not exist.
        name: Name,
        /// 'text:reference-format'.
        form: RefForm,
    },
    /// 'text:sequence-ref'.
    SeqRef {
        /// 'text:ref-name': the reference name of a sequence field, which need not exist.
        name: Name,
        /// 'text:reference-format'.
        form: SeqForm,
    },
    /// 'text:note-ref'.
    NoteRef {
        /// 'text:ref-name': the id of a note, which need not exist.
        name: Name,
        /// 'text:note-class'.
        class: NoteClass,
        /// 'text:reference-format'.
        form: RefForm,
    },
}

impl Field {
    pub fn copy(&self) -> Result<Field, AllocError>
        ensures { IfOk result (λ c. c ≡ self.now) }
    {
        match self {
            Field::Sequence {
                name,
                refname,
                format,
            } => Ok(Field::Sequence {
                name: name.copy()?,
                refname: refname.copy()?,
                format: *format,
            }),
            Field::VarSet { name, value } => Ok(Field::VarSet {
                name: name.copy()?,
                value: value.copy()?,
            }),
            Field::VarGet { name } => Ok(Field::VarGet { name: name.copy()? }),
            Field::Chapter { display, level } => Ok(Field::Chapter {
                display: *display,
                level: *level,
            }),
            Field::PageNumber {
                select,
                adjust,
                format,
            } => Ok(Field::PageNumber {
                select: *select,
                adjust: *adjust,
                format: *format,
            }),
            Field::PageCount { format } => Ok(Field::PageCount { format: *format }),
            Field::BookRef { name, form } => Ok(Field::BookRef {
                name: name.copy()?,
                form: *form,
            }),
            Field::SeqRef { name, form } => Ok(Field::SeqRef {
                name: name.copy()?,
                form: *form,
            }),
            Field::NoteRef { name, class, form } => Ok(Field::NoteRef {
                name: name.copy()?,
                class: *class,
                form: *form,
            }),
        }
    }
}
