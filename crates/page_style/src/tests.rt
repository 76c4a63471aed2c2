//! What is read and answered, against the rules' own examples.

use crate::{dims, length};
use doc_model::{Length, Name, PageLayout};
use std::alloc::Global;

/// A text and the units that it says, if it says a length.
const LENGTHS: &[(&str, Option<i32>)] = &[
    ("0.7874in", Some(719_998)),
    ("0.787400in", Some(719_998)),
    ("1in", Some(914_400)),
    ("1cm", Some(360_000)),
    ("1mm", Some(36_000)),
    ("1pt", Some(12_700)),
    ("1pc", Some(152_400)),
    ("21.001cm", Some(7_560_360)),
    ("29.7cm", Some(10_692_000)),
    ("-1in", Some(-914_400)),
    ("-0in", Some(0)),
    ("-0.000001in", Some(0)),
    ("-0.000002in", Some(-1)),
    ("0.000002in", Some(1)),
    ("-0.7874in", Some(-719_998)),
    (".5in", Some(457_200)),
    ("5.in", Some(4_572_000)),
    ("-.5in", Some(-457_200)),
    ("000000001.000000000in", Some(914_400)),
    ("0000000001in", None),
    ("1.0000000000in", None),
    ("109.361329833in", Some(99_999_999)),
    ("109.361330927in", Some(100_000_000)),
    ("109.361330928in", None),
    ("-109.361330927in", Some(-100_000_000)),
    ("-109.361330928in", None),
    ("7874.0157480pt", Some(99_999_999)),
    ("7874.0157481pt", Some(100_000_000)),
    ("7874.015826772pt", None),
    ("277.777777779cm", Some(100_000_000)),
    ("2777.777777780mm", Some(100_000_000)),
    ("656.167979003pc", Some(100_000_000)),
    ("656.167985565pc", None),
    ("999999999.999999999in", None),
    ("", None),
    ("in", None),
    (".in", None),
    ("-in", None),
    ("-.in", None),
    ("1", None),
    ("1.", None),
    ("--1in", None),
    ("+1in", None),
    ("1-in", None),
    ("1e3in", None),
    ("1 in", None),
    (" 1in", None),
    ("1in ", None),
    ("1IN", None),
    ("1inin", None),
    ("1i", None),
    ("1..5in", None),
    ("1.5.in", None),
    ("1px", None),
    ("1em", None),
    ("1%", None),
    ("1,5in", None),
    ("\u{661}in", None),
];

/// Whether each text says what stands beside it.
fn all_are_read() -> bool {
    for (text, units) in LENGTHS {
        if length(text).map(Length::units) != *units {
            return false;
        }
    }
    true
}

#[test]
fn lengths_are_read(rt: HostRuntime) {
    assert!(rt; all_are_read());
}

/// A layout of 21.001 by 29.7 cm with margins of 2 cm.
fn page(alloc: Global) -> PageLayout {
    PageLayout {
        name: Name::none(alloc),
        width: length("21.001cm"),
        height: length("29.7cm"),
        left: length("2cm"),
        right: length("2cm"),
        top: length("2cm"),
        bottom: length("2cm"),
    }
}

#[test]
fn a_page_of_21_by_30_cm_has_66_columns_and_60_rows(rt: HostRuntime) {
    let page = dims(Some(&page(rt.alloc())));
    assert!(rt; page.columns == 66);
    assert!(rt; page.rows == 60);
}
