//! A paragraph of a header.
ghost use Rattle.std.specs.Prelude.{◌≡◌, map, IfOk};
ghost use Rattle.doc_model.specs.declared.paragraph.Item.{out-Item};
ghost use Rattle.load_model.specs.Headers as header;
ghost use Rattle.load_model.specs.Styles as styles;
ghost use Rattle.read_values.specs.Readings.{rule_of};
ghost use Rattle.sheet_names.specs.Known.{Knows};
ghost use Rattle.head_content.specs.Walk.{IsHead, whats};

use crate::head_items::HeadItems;
use crate::walk::push_inside;
use doc_model::{HeadPar, Item, List, What};
use element_parts::{LeftOut, attributes_out, is};
use load_model::{Element, Key, Tag};
use read_values::Reading;
use sheet_names::Names;
use sqlite_items::Items;
use std::alloc::{AllocError, Global};

/// A paragraph of a header, with what is left out in its element.
#[derive(Debug, Drop)]
pub struct ReadHead {
    /// The paragraph.
    pub paragraph: HeadPar,
    /// What is left out.
    pub left: LeftOut,
}

/// The paragraph of a header that an element is, where these names can be referred to.
pub fn read_head_paragraph(
    alloc: Global,
    names: &Names,
    element: &Element,
) -> Result<ReadHead, AllocError>
    ensures { IfOk result (λ read. (known : styles.Names) → Knows names.now known → IsHead read known element.now) }
{
    let mut read = HeadItems::new(alloc);
    push_inside(alloc, names, element, &mut read)?;
    let (items, left) = read.into_parts();
    let whats = whats_of(alloc, items)?;
    Ok(ReadHead {
        paragraph: HeadPar { items: whats },
        left: attributes_out(head_rules(element), element).both(left),
    })
}

// The rules of a paragraph of a header: the level of a heading has no effect.
fn head_rules(element: &Element) -> &'static [(Key, Reading)]
    ensures { map rule_of result.now ≡ header.head_rules element.now }
{
    if is(Tag::Heading, element) {
        &[(Key::OutlineLevel, Reading::HeadingLevel)]
    } else {
        &[]
    }
}

// What items are, without the spans round them. Nothing is copied.
fn whats_of(alloc: Global, items: Items<Item>) -> Result<List<What>, AllocError>
    ensures { IfOk result (λ them. them ≡ whats items) }
{
    let mut left = items;
    let mut found = Vec::with_capacity(alloc, left.len())?;
    while let Some(item) = left.pop() {
        found.push(what_of(item))?;
    }
    found.reverse();
    Ok(List::from_list(found))
}

// What an item is.
fn what_of(item: Item) -> What
    ensures { result ≡ (out-Item item).what }
{
    let Item {
        spans: _spans,
        what,
    } = item;
    what
}
