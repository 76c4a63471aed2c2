//! The units, the lines and the rows of texts that no plain document has, and of keys that state more than a text.

use break_units::{row, units, width};
use doc_model::{Align, List, ParId};
use line_frames::form;
use line_model::{Formed, Job, Key, ShownText, Stamp, TextUnit, UnitClass};
use std::alloc::{AllocError, Global};
use std::test::Fail;

// A key of no text.
fn key(alloc: Global, columns: u32, indent: i32, level: u8, align: Align) -> Key {
    Key {
        hidden: false,
        text: ShownText::from_text(String::new(alloc)),
        notes: List::new(alloc),
        columns,
        left: 0,
        right: 0,
        indent,
        level,
        align,
        tabs: List::new(alloc),
    }
}

// The lines of a text of less than a hundred bytes under a key.
fn formed(alloc: Global, text: &str, key: Key) -> Result<Formed, AllocError> {
    let mut key = key;
    if text.len() < 100 {
        key.text = ShownText::from_text(String::from_str(alloc, text)?);
    }
    let stamp = Stamp {
        revision: 0,
        epoch: 0,
    };
    let par = ParId(1);
    form(alloc, &Job { par, stamp, key })
}

// The rows of lines, each with a `|` behind it.
fn rows_of(alloc: Global, formed: &Formed) -> Result<String, AllocError> {
    let mut rows = String::new(alloc);
    for line in formed.lines() {
        rows.push_str(row(alloc, &formed.job().key, line)?.get())?;
        rows.push('|')?;
    }
    Ok(rows)
}

// Whether a text has these rows under a key.
fn prints(alloc: Global, text: &str, key: Key, rows: &str) -> Result<bool, AllocError> {
    let formed = formed(alloc, text, key)?;
    Ok(rows_of(alloc, &formed)?.as_str() == rows)
}

// Rows of eight columns.
const ROWS: &[(&str, &str)] = &[
    ("abcdefghijk abcdefg漢", "abcdefgh|ijk|abcdefg|漢|"),
    ("  abcdefgh", "|abcdefgh|"),
    ("abcdefgh   ij", "abcdefgh|ij|"),
    ("a bc\tdefg", "a bc|defg|"),
    ("ab-cd", "ab-cd|"),
    ("abcde-fghi", "abcde-|fghi|"),
    ("abc- ef ghi", "abc- ef|ghi|"),
    ("abcde- fghi", "abcde-|fghi|"),
    ("abcdefg-h", "abcdefg-|h|"),
    ("abcdefgh- i", "abcdefgh|- i|"),
    ("abcdefgh\u{200b}i", "abcdefgh\u{200b}|i|"),
    ("ab\n\ncd\n", "ab||cd||"),
    ("", "|"),
];

fn all_rows(alloc: Global) -> Result<bool, AllocError> {
    for &(text, rows) in ROWS {
        if !prints(alloc, text, key(alloc, 8, 0, 0, Align::Start), rows)? {
            return Ok(false);
        }
    }
    Ok(true)
}

// Rows of ten columns, by their indent, level and place between the margins.
const PLACED: &[(i32, u8, Align, &str, &str)] = &[
    (0, 0, Align::Start, " ab  ", " ab|"),
    (0, 1, Align::Center, "abc\t", "   abc|"),
    (0, 0, Align::End, "漢a ", "       漢a|"),
    (182_880, 2, Align::Start, "a\tb\na\tb", "    a b|  a b|"),
    (
        182_880,
        0,
        Align::Start,
        "abcdefghij kl",
        "  abcdefgh|ij kl|",
    ),
    (-274_320, 2, Align::End, "a", "         a|"),
    (0, 0, Align::End, " \t ", "|"),
    (0, 0, Align::End, "", "|"),
];

fn all_placed(alloc: Global) -> Result<bool, AllocError> {
    for &(indent, level, align, text, rows) in PLACED {
        if !prints(alloc, text, key(alloc, 10, indent, level, align), rows)? {
            return Ok(false);
        }
    }
    Ok(true)
}

// How many columns the line at a place may take, of ten and with an indent.
const WIDTHS: &[(i32, u32, u32)] = &[
    (0, 0, 10),
    (182_879, 0, 9),
    (9_144_000, 0, 2),
    (9_144_000, 1, 10),
];

// Texts of one unit, with its columns and its class.
const UNITS: &[(&str, u32, UnitClass)] = &[
    ("a", 1, UnitClass::Other),
    (" ", 1, UnitClass::Space),
    ("\t", 1, UnitClass::Space),
    ("-", 1, UnitClass::Hyphen),
    ("\u{2010}", 1, UnitClass::Other),
    ("\u{a0}", 1, UnitClass::Other),
    (" \u{301}", 1, UnitClass::Other),
    ("e\u{301}", 1, UnitClass::Other),
    ("\u{7f}", 1, UnitClass::Other),
    ("\r", 1, UnitClass::Other),
    ("漢", 2, UnitClass::Other),
    ("👩🏽\u{200d}🔬", 2, UnitClass::Other),
    ("🇫🇷", 2, UnitClass::Other),
    ("\u{1100}\u{1100}", 4, UnitClass::Other),
];

fn all_widths(alloc: Global) -> bool {
    for &(indent, from, columns) in WIDTHS {
        if width(&key(alloc, 10, indent, 0, Align::Start), from) != columns {
            return false;
        }
    }
    true
}

// Whether a text is one unit, of these columns and this class.
fn is_unit(alloc: Global, text: &str, columns: u32, class: UnitClass) -> Result<bool, AllocError> {
    if text.len() < 100 {
        let to = text.len() as u32;
        let unit = TextUnit {
            from: 0,
            to,
            columns,
            class,
        };
        return Ok(units(alloc, text)?.get() == [unit].as_slice());
    }
    Ok(false)
}

fn all_units(alloc: Global) -> Result<bool, AllocError> {
    for &(text, columns, class) in UNITS {
        if !is_unit(alloc, text, columns, class)? {
            return Ok(false);
        }
    }
    Ok(true)
}

// Whether a cluster is one unit, also the last of several.
fn clusters_are_units(alloc: Global) -> Result<bool, AllocError> {
    let last = TextUnit {
        from: 4,
        to: 7,
        columns: 2,
        class: UnitClass::Other,
    };
    let several = units(alloc, "é -漢")?;
    Ok(all_units(alloc)? && several.len() == 4 && several.get().last() == Some(&last))
}

#[test]
fn lines_end_where_they_may_and_a_cluster_is_one_unit(rt: HostRuntime) -> Result<(), Fail> {
    let alloc = rt.alloc();
    assert!(rt; all_rows(alloc)?);
    assert!(rt; all_placed(alloc)?);
    let mut hidden = key(alloc, 8, 0, 0, Align::Start);
    hidden.hidden = true;
    assert!(rt; prints(alloc, "ab", hidden, "")?);
    assert!(rt; all_widths(alloc));
    assert!(rt; clusters_are_units(alloc)?);
    let narrow = key(alloc, 1, 0, 0, Align::Start);
    assert!(rt; prints(alloc, "\u{1100}\u{1100}ab", narrow, "\u{1100}\u{1100}|ab|")?);
    Ok(())
}
