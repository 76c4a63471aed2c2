//! Field texts of small documents, as the rules give them.

use crate::Walk;
use doc_model::{
    Field, Format, Item, Label, List, Mark, Name, Note, NoteClass, PageAdjust, PageEntry,
    PageTable, ParHead, ParId, ParPage, Select, Spans, Txt, What,
};
use field_model::{Gathered, Shown};
use page_lookup::IndexedTable;
use run_text::RunText;
use sqlite_items::{Boxed, Items};
use std::alloc::{AllocError, Global};
use std::test::Fail;

mod cases;

use cases::{CASES, Case, Line, Part};

fn name(alloc: Global, text: &str) -> Result<Name, AllocError> {
    Ok(Name::from_list(String::from_str(alloc, text)?))
}

fn txt(alloc: Global, text: &str) -> Result<Txt, AllocError> {
    Ok(Txt::from_list(String::from_str(alloc, text)?))
}

fn reference(alloc: Global, part: Part) -> Result<Field, AllocError> {
    match part {
        Part::Bookmark(id, form) => Ok(Field::BookRef {
            name: name(alloc, id)?,
            form,
        }),
        Part::SequenceReference(id, form) => Ok(Field::SeqRef {
            name: name(alloc, id)?,
            form,
        }),
        Part::NoteReference(id, form) => Ok(Field::NoteRef {
            name: name(alloc, id)?,
            class: NoteClass::Footnote,
            form,
        }),
        Part::Set(id, value) => {
            let id = name(alloc, id)?;
            let value = txt(alloc, value)?;
            Ok(Field::VarSet { name: id, value })
        }
        Part::Get(id) => Ok(Field::VarGet {
            name: name(alloc, id)?,
        }),
        Part::Sequence(id, refname, format) => {
            let id = name(alloc, id)?;
            let refname = name(alloc, refname)?;
            Ok(Field::Sequence {
                name: id,
                refname,
                format,
            })
        }
        Part::Chapter(display, level) => Ok(Field::Chapter { display, level }),
        Part::Page(select, pages, format) => Ok(page_field(select, pages, format)),
        Part::Count(format) => Ok(Field::PageCount { format }),
        _ => Ok(Field::PageCount {
            format: Format::Empty,
        }),
    }
}

fn page_field(select: Select, pages: i32, format: Format) -> Field {
    match PageAdjust::new(pages) {
        Some(adjust) => Field::PageNumber {
            select,
            adjust,
            format,
        },
        None => Field::PageCount { format },
    }
}

fn what(alloc: Global, part: Part) -> Result<What, AllocError> {
    match part {
        Part::Tab => Ok(What::Tab),
        Part::Note(id, class) => {
            let note = Note {
                id: name(alloc, id)?,
                class,
                pars: Items::new(alloc),
            };
            Ok(What::Note(Boxed::new(alloc, note)?))
        }
        Part::Point(id) => Ok(What::Mark(Boxed::new(alloc, Mark::Point(name(alloc, id)?))?)),
        Part::Start(id) => Ok(What::Mark(Boxed::new(alloc, Mark::Start(name(alloc, id)?))?)),
        Part::End(id) => Ok(What::Mark(Boxed::new(alloc, Mark::End(name(alloc, id)?))?)),
        other => Ok(What::Field(Boxed::new(alloc, reference(alloc, other)?)?)),
    }
}

fn push(alloc: Global, items: &mut Vec<Item>, what: What) -> Result<(), AllocError> {
    items.push(Item {
        spans: Spans::none(alloc),
        what,
    })?;
    Ok(())
}

fn push_text(alloc: Global, items: &mut Vec<Item>, text: &str) -> Result<(), AllocError> {
    for c in text.chars() {
        push(alloc, items, What::Char(c))?;
    }
    Ok(())
}

fn items_of(alloc: Global, parts: &[Part]) -> Result<RunText<Item>, AllocError> {
    let mut items = Vec::new(alloc);
    for part in parts {
        match *part {
            Part::Text(text) => push_text(alloc, &mut items, text)?,
            other => push(alloc, &mut items, what(alloc, other)?)?,
        }
    }
    let mut run = RunText::new(alloc);
    run.splice(0, 0, items.as_slice())?;
    Ok(run)
}

fn gather(alloc: Global, walk: &mut Walk, line: &Line) -> Result<(), AllocError> {
    let full = txt(alloc, line.full)?;
    let plain = txt(alloc, line.plain)?;
    let label = Label { full, plain };
    let head = ParHead {
        id: ParId(line.id),
        style: Name::none(alloc),
        level: line.level,
        list: None,
    };
    let items = items_of(alloc, line.parts)?;
    let place = match line.note {
        0 => Gathered::Body,
        number => Gathered::Note(number),
    };
    walk.gather_one(place, &head, &label, &items)
}

fn table_of(alloc: Global, case: &Case) -> Result<IndexedTable, AllocError> {
    let mut pages = List::new(alloc);
    for index in 0..case.pages {
        pages.push(PageEntry {
            number: index.saturating_add(1),
            columns: 60,
        })?;
    }
    let mut pars = List::new(alloc);
    for line in case.lines {
        pars.push(ParPage {
            par: ParId(line.id),
            page: line.page,
        })?;
    }
    IndexedTable::of(alloc, PageTable { pages, pars })
}

// The text of the next field or note, or '!' where none is told for the item.
fn shown_text(shown: Option<&Shown>, at: usize) -> &str {
    match shown {
        Some(one) => {
            if one.item as usize == at {
                one.text.get()
            } else {
                "!"
            }
        }
        None => "!",
    }
}

// What the items show one after another, with the texts of fields and notes.
fn row_of(alloc: Global, items: &[Item], shown: &[Shown]) -> Result<String, AllocError> {
    let mut row = String::new(alloc);
    let mut next = 0usize;
    for (at, item) in items.iter().enumerate() {
        match &item.what {
            What::Char(c) => row.push(*c)?,
            What::Tab => row.push(' ')?,
            What::Break => row.push(' ')?,
            What::Mark(_) => {}
            What::Field(_) => {
                row.push_str(shown_text(shown.get(next), at))?;
                next = next.saturating_add(1);
            }
            What::Note(_) => {
                row.push_str(shown_text(shown.get(next), at))?;
                next = next.saturating_add(1);
            }
        }
    }
    Ok(row)
}

fn is_shown(
    alloc: Global,
    walk: &Walk,
    table: &IndexedTable,
    line: &Line,
) -> Result<bool, AllocError> {
    let items = items_of(alloc, line.parts)?;
    let shown = walk.show_one(ParId(line.id), &items, table)?;
    let (front, _behind) = items.slice(0, items.len());
    let row = row_of(alloc, front, shown.get())?;
    Ok(row.as_str().trim_end() == line.row)
}

fn agrees(alloc: Global, case: &Case) -> Result<bool, AllocError> {
    let mut walk = Walk::new(alloc);
    for line in case.lines {
        gather(alloc, &mut walk, line)?;
    }
    let table = table_of(alloc, case)?;
    for line in case.lines {
        if !is_shown(alloc, &walk, &table, line)? {
            return Ok(false);
        }
    }
    Ok(true)
}

fn all_agree(alloc: Global) -> Result<bool, AllocError> {
    for case in CASES {
        if !agrees(alloc, case)? {
            return Ok(false);
        }
    }
    Ok(true)
}

#[test]
fn fields_show_what_the_rules_say(rt: HostRuntime) -> Result<(), Fail> {
    assert!(rt; all_agree(rt.alloc())?);
    Ok(())
}
