//! The rules of fields, of the properties of styles and of the dimensions of pages.
ghost use Rattle.std.specs.Prelude.{◌≡◌, map};
ghost use Rattle.load_model.specs.declared.names.Tag.TheVariants as tag;
ghost use Rattle.load_model.specs.Fields as fields;
ghost use Rattle.load_model.specs.Styles as styles;
ghost use Rattle.read_values.specs.Readings.{rule_of};

use crate::readings::Reading;
use doc_model::Family;
use load_model::{Key, Tag};

const PARAGRAPH_RULES: &[(Key, Reading)] = &[
    (Key::Margin, Reading::Length),
    (Key::MarginLeft, Reading::Length),
    (Key::MarginRight, Reading::Length),
    (Key::MarginTop, Reading::Length),
    (Key::MarginBottom, Reading::Length),
    (Key::Indent, Reading::Length),
    (Key::Align, Reading::Alignment),
    (Key::BreakBefore, Reading::Break),
    (Key::BreakAfter, Reading::Break),
    (Key::KeepNext, Reading::Keep),
    (Key::KeepTogether, Reading::Keep),
    (Key::Widows, Reading::LineCount),
    (Key::Orphans, Reading::LineCount),
    (Key::PageNumber, Reading::PageStart),
];

/// The rules of the properties of paragraphs ('style:paragraph-properties').
pub fn paragraph_rules() -> &'static [(Key, Reading)]
    ensures { map rule_of result.now ≡ styles.paragraph_rules }
{
    PARAGRAPH_RULES
}

/// The rules of the properties of text ('style:text-properties') in a style of a family: a section has none.
pub fn text_rules(family: Family) -> &'static [(Key, Reading)]
    ensures { map rule_of result.now ≡ styles.text_rules family }
{
    match family {
        Family::Section => &[],
        _ => &[(Key::Display, Reading::Display)],
    }
}

const LAYOUT_RULES: &[(Key, Reading)] = &[
    (Key::PageWidth, Reading::Length),
    (Key::PageHeight, Reading::Length),
    (Key::Margin, Reading::Length),
    (Key::MarginLeft, Reading::Length),
    (Key::MarginRight, Reading::Length),
    (Key::MarginTop, Reading::Length),
    (Key::MarginBottom, Reading::Length),
];

/// The rules of the dimensions of pages ('style:page-layout-properties').
pub fn layout_rules() -> &'static [(Key, Reading)]
    ensures { map rule_of result.now ≡ styles.layout_rules }
{
    LAYOUT_RULES
}

const FIRST_SEQUENCE: &[(Key, Reading)] = &[
    (Key::TextName, Reading::NameOrNone),
    (Key::ReferenceName, Reading::OwnName(true)),
    (Key::NumberFormat, Reading::NumberFormat),
];

const LATER_SEQUENCE: &[(Key, Reading)] = &[
    (Key::TextName, Reading::NameOrNone),
    (Key::ReferenceName, Reading::OwnName(false)),
    (Key::NumberFormat, Reading::NumberFormat),
];

const NOTE_REFERENCE: &[(Key, Reading)] = &[
    (Key::ReferenceName, Reading::NameOrNone),
    (Key::NoteClass, Reading::NoteClass),
    (Key::ReferenceFormat, Reading::ReferenceForm),
];

/// The rules of a sequence field: whether it is the first of its reference name.
fn sequence_rules(is_first: bool) -> &'static [(Key, Reading)]
    ensures { map rule_of result.now ≡ fields.field_rules tag.Sequence is_first }
{
    if is_first {
        FIRST_SEQUENCE
    } else {
        LATER_SEQUENCE
    }
}

/// The rules of a field that is this element; whether it is the first of its reference name. Any other element has none.
pub fn field_rules(tag: Tag, is_first: bool) -> &'static [(Key, Reading)]
    ensures { map rule_of result.now ≡ fields.field_rules tag is_first }
{
    match tag {
        Tag::Sequence => sequence_rules(is_first),
        Tag::VariableSet => &[(Key::TextName, Reading::NameOrNone)],
        Tag::VariableGet => &[(Key::TextName, Reading::NameOrNone)],
        Tag::Chapter => &[
            (Key::Display, Reading::ChapterDisplay),
            (Key::OutlineLevel, Reading::Level),
        ],
        Tag::PageNumber => &[
            (Key::SelectPage, Reading::PageSelect),
            (Key::PageAdjust, Reading::PageAdjust),
            (Key::NumberFormat, Reading::NumberFormat),
        ],
        Tag::PageCount => &[(Key::NumberFormat, Reading::NumberFormat)],
        Tag::BookmarkReference => &[
            (Key::ReferenceName, Reading::NameOrNone),
            (Key::ReferenceFormat, Reading::ReferenceForm),
        ],
        Tag::SequenceReference => &[
            (Key::ReferenceName, Reading::NameOrNone),
            (Key::ReferenceFormat, Reading::SequenceForm),
        ],
        Tag::NoteReference => NOTE_REFERENCE,
        _ => &[],
    }
}
