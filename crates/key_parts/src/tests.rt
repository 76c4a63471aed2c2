//! That the key of a paragraph is made with ample memory.

use crate::*;
use doc_model::{Item, Props, Spans, Txt, What};
use std::alloc::{AllocError, Global};
use std::test::Fail;

fn item(alloc: Global, what: What) -> Item {
    Item {
        spans: Spans::none(alloc),
        what,
    }
}

fn is_made(alloc: Global) -> Result<bool, AllocError> {
    let mut items = Vec::new(alloc);
    items.push(item(alloc, What::Char('a')))?;
    items.push(item(alloc, What::Tab))?;
    items.push(item(alloc, What::Break))?;
    let none = Txt::none(alloc);
    let props = Props::unstated();
    let parts = KeyParts {
        in_hidden_section: true,
        in_hidden_note: false,
        citation: &none,
        label: &none,
        items: items.as_slice(),
        more_items: &[],
        shown: &[],
        displays: &[],
        list: &None,
        props: &props,
        columns: 8,
    };
    let key = key_of(alloc, &parts)?;
    Ok(key.text.get() == "a\t\n" && key.hidden)
}

#[test]
fn a_key_is_made(rt: HostRuntime) -> Result<(), Fail> {
    assert!(rt; is_made(rt.alloc())?);
    Ok(())
}
