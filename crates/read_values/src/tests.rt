//! What is read, against the rules' own words.

use crate::{Reading, length, page_adjust};
use doc_model::{Length, PageAdjust};

/// A reading, a text, and whether it is a good value.
const GOODS: &[(Reading, &str, bool)] = &[
    (Reading::Truth, "true", true),
    (Reading::Truth, "True", false),
    (Reading::Truth, "", false),
    (Reading::Name, "", false),
    (Reading::Name, " ", true),
    (Reading::NameOrNone, "", true),
    (Reading::AnyText, "", true),
    (Reading::OneCharacter, "", false),
    (Reading::OneCharacter, "\u{2022}", true),
    (Reading::OneCharacter, "\u{2022}\u{2022}", false),
    (Reading::Number(1, 4_294_967_295), "4294967295", true),
    (Reading::Number(1, 4_294_967_295), "4294967296", false),
    (Reading::Number(1, 4_294_967_295), "0", false),
    (
        Reading::Number(0, 65535),
        "00000000000000000000065535",
        true,
    ),
    (Reading::Number(0, 65535), "+1", false),
    (Reading::Number(0, 65535), " 1", false),
    (Reading::Number(0, 65535), "\u{661}", false),
    (Reading::LineCount, "255", true),
    (Reading::LineCount, "256", false),
    (Reading::Level, "10", true),
    (Reading::Level, "11", false),
    (Reading::Level, "0", false),
    (Reading::HeadingLevel, "11", true),
    (Reading::HeadingLevel, "99999999999999999999", true),
    (Reading::HeadingLevel, "0", false),
    (Reading::Length, "1in", true),
    (Reading::Length, "1px", false),
    (Reading::Family, "section", true),
    (Reading::Family, "table", false),
    (Reading::Alignment, "justify", true),
    (Reading::Alignment, "inside", false),
    (Reading::Break, "page", true),
    (Reading::Break, "even-page", false),
    (Reading::Keep, "always", true),
    (Reading::Keep, "true", false),
    (Reading::PageStart, "auto", true),
    (Reading::PageStart, "65536", false),
    (Reading::PageStart, "-1", false),
    (Reading::Display, "condition", true),
    (Reading::Display, "false", false),
    (Reading::NumberFormat, "", true),
    (Reading::NumberFormat, "i", true),
    (Reading::NumberFormat, "01", false),
    (Reading::ChapterDisplay, "plain-number-and-name", true),
    (Reading::ChapterDisplay, "title", false),
    (Reading::PageSelect, "current", true),
    (Reading::PageSelect, "last", false),
    (Reading::PageAdjust, "-9999", true),
    (Reading::PageAdjust, "-10000", false),
    (Reading::PageAdjust, "--1", false),
    (Reading::PageAdjust, "-", false),
    (Reading::PageAdjust, "+1", false),
    (Reading::ReferenceForm, "direction", true),
    (Reading::ReferenceForm, "value", false),
    (Reading::SequenceForm, "category-and-value", true),
    (Reading::SequenceForm, "number", false),
    (Reading::NoteClass, "endnote", true),
    (Reading::NoteClass, "note", false),
];

/// Whether each text is judged as stands beside it.
fn all_are_judged() -> bool {
    for (reading, text, good) in GOODS {
        if reading.is_good(text) != *good {
            return false;
        }
    }
    true
}

/// A text and its length in units, if it has one.
const LENGTHS: &[(&str, Option<i32>)] = &[
    ("0.7874in", Some(719_998)),
    ("-0.000002in", Some(-1)),
    ("-0in", Some(0)),
    (".5in", Some(457_200)),
    ("5.in", Some(4_572_000)),
    ("109.361330927in", Some(100_000_000)),
    ("109.361330928in", None),
    ("-109.361330927in", Some(-100_000_000)),
    ("0000000001in", None),
    ("1.0000000000in", None),
    (".in", None),
    ("-in", None),
    ("--1in", None),
    ("1 in", None),
    ("1in ", None),
    ("", None),
    ("\u{661}in", None),
];

/// Whether each length is read as stands beside it.
fn lengths_are_read() -> bool {
    for (text, units) in LENGTHS {
        if length(text).map(Length::units) != *units {
            return false;
        }
    }
    true
}

/// A text and the pages that it adds, if it is such a number.
const ADJUSTS: &[(&str, Option<i32>)] = &[
    ("0", Some(0)),
    ("-0", Some(0)),
    ("-1", Some(-1)),
    ("0012", Some(12)),
    ("9999", Some(9999)),
    ("10000", None),
    ("", None),
];

/// Whether each number of pages is read as stands beside it.
fn adjusts_are_read() -> bool {
    for (text, pages) in ADJUSTS {
        if page_adjust(text).map(PageAdjust::pages) != *pages {
            return false;
        }
    }
    true
}

#[test]
fn texts_are_judged(rt: HostRuntime) {
    assert!(rt; all_are_judged());
    assert!(rt; lengths_are_read());
    assert!(rt; adjusts_are_read());
}
