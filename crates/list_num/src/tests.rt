//! Labels of paragraphs that follow one another.

ghost use Rattle.std.specs.Prelude.{◌≤◌, IfOk};
ghost use Rattle.std.specs.Option.{ForSome};

use crate::counts::Counts;
use doc_model::{
    Format, LevelNumber, LevelWhat, List, ListLevel, ListPos, ListStyle, Name, ParHead, ParId, Txt,
};
use std::alloc::{AllocError, Global};
use std::test::Fail;

/// A level of a style: its number, its format or a bullet, prefix, suffix, start value, and how many levels it shows.
type LevelRow = (u8, &'static str, &'static str, &'static str, u16, u8);

/// A paragraph: its list style, list level (0 is none), whether it is an item and starts counting again, its heading
/// level, its label and the plain one.
type ParRow = (&'static str, u8, bool, bool, u8, &'static str, &'static str);

const OUTLINE: &[LevelRow] = &[
    (1, "I", "Part ", ".", 1, 1),
    (2, "1", "", "", 0, 2),
    (4, "a", "", "", 1, 10),
];

/// Level 2 is missing and level 3 a bullet.
const FIRST: &[LevelRow] = &[
    (1, "1", "(", ")", 3, 1),
    (3, "•", "", "", 1, 1),
    (4, "a", "", "", 26, 4),
    (5, "", "x", "y", 1, 5),
    (6, "i", "<", ">", 1, 3),
];

const SECOND: &[LevelRow] = &[(1, "A", "", "", 1, 1), (2, "1", "", ":", 7, 2)];

const PARS: &[ParRow] = &[
    // a level that is clear is shown by its start value, and stays clear
    ("first", 4, true, true, 0, "3.z", "3.z"),
    ("first", 1, true, false, 0, "(3)", "3"),
    // a level above clears the deeper ones
    ("first", 4, true, false, 0, "3.z", "3.z"),
    ("first", 4, true, false, 0, "3.aa", "3.aa"),
    // an item of a missing level, a bullet and one of the empty format count and clear
    ("first", 2, true, false, 0, "", ""),
    ("first", 4, true, false, 0, "3.z", "3.z"),
    ("first", 3, true, false, 0, "•", "•"),
    ("first", 5, true, false, 0, "", ""),
    // levels 4 to 6, without the one of the empty format
    ("first", 6, true, false, 0, "<z.i>", "z.i"),
    ("first", 6, false, false, 0, "", ""),
    ("first", 6, true, false, 0, "<z.ii>", "z.ii"),
    // another list style counts for itself
    ("second", 2, true, true, 0, "A.7:", "A.7"),
    ("second", 1, true, false, 0, "A", "A"),
    ("second", 1, true, false, 0, "B", "B"),
    ("second", 2, true, false, 0, "B.7:", "B.7"),
    ("first", 6, true, false, 0, "<z.iii>", "z.iii"),
    // a list that goes on, and one that starts again, by a paragraph that is no item too
    ("first", 1, true, false, 0, "(4)", "4"),
    ("first", 1, true, true, 0, "(3)", "3"),
    ("first", 2, false, true, 0, "", ""),
    ("first", 1, true, false, 0, "(3)", "3"),
    ("second", 2, true, false, 0, "B.8:", "B.8"),
    // headings, where one in a list is none, and neither is a paragraph
    ("", 0, false, false, 2, "I.0", "I.0"),
    ("", 0, false, false, 1, "Part I.", "I"),
    ("second", 2, true, false, 1, "B.9:", "B.9"),
    ("", 3, true, true, 1, "", ""),
    ("", 0, false, false, 0, "", ""),
    ("", 0, false, false, 2, "I.0", "I.0"),
    ("", 0, false, false, 3, "", ""),
    ("", 0, false, false, 4, "I.0.a", "I.0.a"),
    ("", 0, false, false, 2, "I.1", "I.1"),
    ("", 0, false, false, 1, "Part II.", "II"),
    ("lost", 1, true, true, 0, "", ""),
];

fn format_of(word: &str) -> Option<Format> {
    match word {
        "1" => Some(Format::Digits),
        "a" => Some(Format::LowerLetter),
        "A" => Some(Format::UpperLetter),
        "i" => Some(Format::LowerRoman),
        "I" => Some(Format::UpperRoman),
        "" => Some(Format::Empty),
        _ => None,
    }
}

fn level(alloc: Global, row: &LevelRow) -> Result<ListLevel, AllocError> {
    let level = LevelNumber::new(row.0).ok_or(AllocError)?;
    let display = LevelNumber::new(row.5).ok_or(AllocError)?;
    let what = match format_of(row.1) {
        Some(format) => LevelWhat::Number {
            format,
            prefix: Txt::from_list(String::from_str(alloc, row.2)?),
            suffix: Txt::from_list(String::from_str(alloc, row.3)?),
            start: row.4,
            display,
        },
        None => LevelWhat::Bullet(row.1.chars().next().ok_or(AllocError)?),
    };
    Ok(ListLevel { level, what })
}

fn style(alloc: Global, name: &str, rows: &[LevelRow]) -> Result<ListStyle, AllocError> {
    let mut levels = List::new(alloc);
    for row in rows {
        levels.push(level(alloc, row)?)?;
    }
    Ok(ListStyle {
        name: Name::from_list(String::from_str(alloc, name)?),
        levels,
    })
}

fn head(alloc: Global, row: &ParRow) -> Result<ParHead, AllocError>
    ensures level { IfOk result (λ head. head.level ≤ 10) }
    ensures least { IfOk result (λ head. ForSome head.list (λ place. 1 ≤ place.level)) }
    ensures most { IfOk result (λ head. ForSome head.list (λ place. place.level ≤ 10)) }
{
    let style = Name::none(alloc);
    let level = row.4.min(10);
    if row.1 == 0 {
        return Ok(ParHead {
            id: ParId(1),
            style,
            level,
            list: None,
        });
    }
    let place = ListPos {
        style: Name::from_list(String::from_str(alloc, row.0)?),
        level: row.1.min(10),
        item: row.2,
        fresh: row.3,
    };
    Ok(ParHead {
        id: ParId(1),
        style,
        level,
        list: Some(place),
    })
}

fn is_labelled(
    alloc: Global,
    counts: &mut Counts,
    lists: &[ListStyle],
    outline: &ListStyle,
    row: &ParRow,
) -> Result<bool, AllocError> {
    let head = head(alloc, row)?;
    let label = counts.label_one(&head, lists, outline)?;
    Ok(label.full.get() == row.5 && label.plain.get() == row.6)
}

fn are_labelled(alloc: Global, rows: &[ParRow]) -> Result<bool, AllocError> {
    let outline = style(alloc, "", OUTLINE)?;
    let mut lists = Vec::new(alloc);
    lists.push(style(alloc, "second", SECOND)?)?;
    lists.push(style(alloc, "first", FIRST)?)?;
    let mut counts = Counts::new(alloc);
    for row in rows {
        if !is_labelled(alloc, &mut counts, &lists, &outline, row)? {
            return Ok(false);
        }
    }
    Ok(true)
}

#[test]
fn items_and_headings_are_labelled(rt: HostRuntime) -> Result<(), Fail> {
    assert!(rt; are_labelled(rt.alloc(), PARS)?);
    Ok(())
}
