//! That edits can be copied and read the same, that the small types hold what they are given, and how large an item is.

use crate::*;
use sqlite_items::{Boxed, Items};
use std::alloc::{AllocError, Global};
use std::mem::size_of;
use std::test::Fail;

fn name(alloc: Global, text: &str) -> Result<Name, AllocError> {
    Ok(Name::from_list(String::from_str(alloc, text)?))
}

fn list<T: Drop>(alloc: Global, item: T) -> Result<List<T>, AllocError> {
    let mut list = List::new(alloc);
    list.push(item)?;
    Ok(list)
}

#[test]
fn copied_edits_are_the_same(rt: HostRuntime) -> Result<(), Fail> {
    let alloc = rt.alloc();
    let place = ListPos {
        style: name(alloc, "L")?,
        level: 1,
        item: true,
        fresh: false,
    };
    let group = Group(list(
        alloc,
        EditOp::SetList {
            par: ParId(1),
            list: Some(place),
        },
    )?);
    assert!(rt; group.copy()? == group);
    Ok(())
}

#[test]
fn small_types_hold_what_they_are_given(rt: HostRuntime) -> Result<(), Fail> {
    let alloc = rt.alloc();
    for (left, right, same) in [
        ("", "", true),
        ("a", "b", false),
        ("漢字", "漢字", true),
        ("a", "ab", false),
    ] {
        let found = name(alloc, left)?.is_same(&name(alloc, right)?);
        assert_eq!(rt; found, same, "{left} and {right}");
    }
    let list = list(alloc, 4)?;
    assert_eq!(rt; list.len(), 1);
    assert_eq!(rt; list.copy()?.into_vec().as_slice(), [4].as_slice());
    Ok(())
}

// A paragraph of many characters, a field, a mark and a note.
fn long_paragraph(alloc: Global) -> Result<Par, AllocError> {
    let mut items = Items::new(alloc);
    for _ in 0..10_000 {
        items.push(item(alloc, What::Char('a')))?;
    }
    let field = Field::VarSet {
        name: name(alloc, "v")?,
        value: Txt::none(alloc),
    };
    items.push(item(alloc, What::Field(Boxed::new(alloc, field)?)))?;
    let mark = Mark::Point(name(alloc, "b")?);
    items.push(item(alloc, What::Mark(Boxed::new(alloc, mark)?)))?;
    let note = Note {
        id: Name::none(alloc),
        class: NoteClass::Footnote,
        pars: Items::new(alloc),
    };
    items.push(item(alloc, What::Note(Boxed::new(alloc, note)?)))?;
    Ok(Par {
        id: ParId(1),
        style: Name::none(alloc),
        level: 0,
        list: None,
        items,
    })
}

fn item(alloc: Global, what: What) -> Item {
    Item {
        spans: Spans::none(alloc),
        what,
    }
}

// A document with a style, a list style, a layout, a master and a long paragraph.
fn full_document(alloc: Global) -> Result<Document, AllocError> {
    let body = list(alloc, Block::Par(long_paragraph(alloc)?))?;
    let mut document = Document::from_body(alloc, body);
    document.styles.push(Style {
        family: Family::Paragraph,
        name: name(alloc, "S")?,
        auto: false,
        parent: Name::none(alloc),
        next: Name::none(alloc),
        master: Some(name(alloc, "M")?),
        outline: 0,
        props: Props::unstated(),
    })?;
    document.lists.push(ListStyle::no_outline(alloc))?;
    document.layouts.push(PageLayout {
        name: name(alloc, "q")?,
        width: Some(Length::zero()),
        height: None,
        left: None,
        right: None,
        top: None,
        bottom: None,
    })?;
    document.masters.push(Master {
        name: name(alloc, "M")?,
        layout: name(alloc, "q")?,
        next: Name::none(alloc),
        header: List::new(alloc),
        footer: List::new(alloc),
    })?;
    Ok(document)
}

// Copies of what isn't part of a document.
fn copy_answers(alloc: Global) -> Result<bool, AllocError> {
    let refusal = Refusal::NoName(NameSort::Style, name(alloc, "S")?);
    let pages = Pages {
        pages: List::new(alloc),
        settled: true,
    };
    let table = PageTable {
        pages: List::new(alloc),
        pars: List::new(alloc),
    };
    let label = Label {
        full: Txt::none(alloc),
        plain: Txt::none(alloc),
    };
    let head = ParHead {
        id: ParId(1),
        style: Name::none(alloc),
        level: 0,
        list: None,
    };
    let prop = Prop::Display(Some(true));
    Ok(
        refusal.copy()? == refusal
            && pages.copy()? == pages
            && table.copy()? == table
            && label.copy()? == label
            && head.copy()? == head
            && prop.copy()? == prop,
    )
}

#[test]
fn copies_can_be_made(rt: HostRuntime) -> Result<(), Fail> {
    let copy = full_document(rt.alloc())?.copy()?;
    assert!(rt; copy.body.len() == 1);
    assert!(rt; copy_answers(rt.alloc())?);
    Ok(())
}

/// Many millions of items are held, most of them characters.
#[test]
fn an_item_is_small(rt: HostRuntime) {
    assert!(rt; size_of::<Item>() <= 64);
}
