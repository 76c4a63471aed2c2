//! The items of a paragraph as they are read, with the spaces that stay.
ghost use Rattle.std.specs.Prelude.{IsTrue, vec_len};
ghost use Rattle.item_spaces.specs.Last.{is_within};

use crate::last::Last;
use crate::letters::{drop_item, is_mark, is_white};
use doc_model::{Item, Spans, What};
use sqlite_items::Items;
use std::alloc::{AllocError, Global};

/// The items of a paragraph so far. What they are by what was read is said by `Holds`.
#[derive(Drop)]
pub struct SpacedItems {
    items: Vec<Item>,
    last: Last,
    ghost within: { IsTrue (is_within last (vec_len items)) },
}

impl SpacedItems {
    ghost use Rattle.std.specs.Prelude.{◌≡◌, List, [], ◌∷◌, reverse, OnOk};
    ghost use Rattle.load_model.specs.Content.{Raw, Blank, Read, raw_character, items_of_raw};
    ghost use Rattle.item_spaces.specs.Spacing.{Holds};

    /// No item. It takes no memory.
    pub fn new(alloc: Global) -> SpacedItems
        ensures { Holds result [] }
    {
        SpacedItems {
            items: Vec::new(alloc),
            last: Last::Nothing,
        }
    }

    /// Adds an item.
    pub fn push(&mut self, item: Item) -> Result<(), AllocError>
        ensures { OnOk result ((before : List Raw) → Holds self.old before → Holds self.new (Read item ∷ before)) }
    {
        let is_mark = is_mark(&item.what);
        self.items.push(item)?;
        if !is_mark {
            self.last = Last::Solid;
        }
        Ok(())
    }

    /// Adds a space of character data in spans. Where it can't stay, nothing is copied.
    pub fn push_space(&mut self, spans: &Spans) -> Result<(), AllocError>
        ensures { OnOk result ((before : List Raw) → Holds self.old before → Holds self.new (Blank spans.now ∷ before)) }
    {
        if !self.last.is_solid() {
            return Ok(());
        }
        let spans = spans.copy()?;
        let at = self.items.len();
        self.items.push(Item {
            spans,
            what: What::Char(' '),
        })?;
        self.last = Last::Space(at);
        Ok(())
    }

    /// Adds a character of character data in spans.
    pub fn push_char(&mut self, spans: &Spans, c: char) -> Result<(), AllocError>
        ensures { OnOk result ((before : List Raw) → Holds self.old before → Holds self.new (raw_character spans.now c ∷ before)) }
    {
        if is_white(c) {
            return self.push_space(spans);
        }
        let spans = spans.copy()?;
        self.push(Item {
            spans,
            what: What::Char(c),
        })
    }

    /// The items, when the paragraph is at its end.
    pub fn into_items(self) -> Items<Item>
        ensures { (before : List Raw) → Holds self before → result ≡ items_of_raw (reverse before) }
    {
        let SpacedItems { mut items, last } = self;
        if let Some(at) = last.place() {
            drop_item(&mut items, at);
        }
        Items::from_vec(items)
    }
}
