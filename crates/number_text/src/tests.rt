//! Numbers at the edges of their formats, and a text that is too long.

use crate::cut::CutText;
use crate::numbers::push_number;
use doc_model::Format;
use std::alloc::{AllocError, Global};
use std::test::Fail;

/// A number, and what it is in digits, small and large letters, and small and large roman letters.
const NUMBERS: &[(u64, &str, &str, &str, &str, &str)] = &[
    (0, "0", "0", "0", "0", "0"),
    (1, "1", "a", "A", "i", "I"),
    (2, "2", "b", "B", "ii", "II"),
    (4, "4", "d", "D", "iv", "IV"),
    (26, "26", "z", "Z", "xxvi", "XXVI"),
    (27, "27", "aa", "AA", "xxvii", "XXVII"),
    (52, "52", "az", "AZ", "lii", "LII"),
    (53, "53", "ba", "BA", "liii", "LIII"),
    (702, "702", "zz", "ZZ", "dccii", "DCCII"),
    (703, "703", "aaa", "AAA", "dcciii", "DCCIII"),
    (1949, "1949", "bvy", "BVY", "mcmxlix", "MCMXLIX"),
    (3999, "3999", "ewu", "EWU", "mmmcmxcix", "MMMCMXCIX"),
    (4000, "4000", "ewv", "EWV", "4000", "4000"),
];

fn shows(alloc: Global, format: Format, number: u64, wanted: &str) -> Result<bool, AllocError> {
    let mut shown = CutText::new(alloc);
    push_number(&mut shown, format, number)?;
    Ok(shown.into_txt().get() == wanted)
}

fn shows_row(alloc: Global, row: &(u64, &str, &str, &str, &str, &str)) -> Result<bool, AllocError> {
    if !shows(alloc, Format::Digits, row.0, row.1)? {
        return Ok(false);
    }
    if !shows(alloc, Format::LowerLetter, row.0, row.2)? {
        return Ok(false);
    }
    if !shows(alloc, Format::UpperLetter, row.0, row.3)? {
        return Ok(false);
    }
    if !shows(alloc, Format::LowerRoman, row.0, row.4)? {
        return Ok(false);
    }
    if !shows(alloc, Format::UpperRoman, row.0, row.5)? {
        return Ok(false);
    }
    shows(alloc, Format::Empty, row.0, "")
}

fn shows_all(alloc: Global) -> Result<bool, AllocError> {
    for row in NUMBERS {
        if !shows_row(alloc, row)? {
            return Ok(false);
        }
    }
    Ok(true)
}

fn keeps_512(alloc: Global) -> Result<bool, AllocError> {
    let mut kept = CutText::new(alloc);
    for _ in 0..511 {
        kept.push('ä')?;
    }
    kept.push_str("bc")?;
    let text = kept.into_txt();
    Ok(text.get().chars().count() == 512 && text.get().ends_with("äb"))
}

#[test]
fn numbers_are_shown_in_each_format(rt: HostRuntime) -> Result<(), Fail> {
    assert!(rt; shows_all(rt.alloc())?);
    Ok(())
}

#[test]
fn a_long_text_keeps_512_characters(rt: HostRuntime) -> Result<(), Fail> {
    assert!(rt; keeps_512(rt.alloc())?);
    Ok(())
}
