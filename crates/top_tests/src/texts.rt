//! The text and the key of a paragraph that no plain document has.

ghost use Rattle.std.specs.Prelude.{◌≤◌, length, IfOk};
ghost use Rattle.doc_model.specs.Parts.{items_of};

use doc_model::{Item, Name, Par, ParId, Spans, What};
use par_keys::{key_of, text_of};
use sqlite_items::Items;
use std::alloc::{AllocError, Global};
use std::test::Fail;

fn item(alloc: Global, what: What) -> Item {
    Item {
        spans: Spans::none(alloc),
        what,
    }
}

// A paragraph of these and no more than three items.
fn paragraph(alloc: Global, first: What, second: What, third: What) -> Result<Par, AllocError>
    ensures { IfOk result (λ par. length (items_of par) ≤ 32768) }
{
    let mut items = Items::new(alloc);
    items.push(item(alloc, first))?;
    items.push(item(alloc, second))?;
    items.push(item(alloc, third))?;
    Ok(Par {
        id: ParId(1),
        style: Name::none(alloc),
        level: 0,
        list: None,
        items,
    })
}

// Whether the text and the key of a paragraph with a tab and a break have them.
fn are_shown(alloc: Global) -> Result<bool, AllocError> {
    let par = paragraph(alloc, What::Char('é'), What::Tab, What::Break)?;
    let key = key_of(alloc, &par)?;
    Ok(text_of(alloc, &par)?.get() == "é\t\n" && key.text.get() == "é\t\n")
}

#[test]
fn tabs_and_breaks_are_shown(rt: HostRuntime) -> Result<(), Fail> {
    assert!(rt; are_shown(rt.alloc())?);
    Ok(())
}
