//! What is read of a paragraph of a header so far.
ghost use Rattle.std.specs.Prelude.{◌≡◌, ◌∷◌, [], chars, OnOk};
ghost use Rattle.load_model.specs.Blocks.{ReadContent};
ghost use Rattle.load_model.specs.Content.{items_of_raw, raw_character};
ghost use Rattle.load_model.specs.Left.{Left};
ghost use Rattle.element_parts.specs.Shown.{shown};
ghost use Rattle.head_content.specs.Reading.{Adds, IsRead, item_of, letter_item, letters, nothing_read, only_items, only_left, one_raw, spaced_letter, spaced_letters};

use doc_model::{Item, Spans, What};
use element_parts::LeftOut;
use item_spaces::{SpacedItems, is_white};
use sqlite_items::Items;
use std::alloc::{AllocError, Global};

/// The items that are read, and what is left out. What they are by what was read is said by `IsRead`.
#[derive(Drop)]
pub(crate) struct HeadItems {
    items: SpacedItems,
    left: LeftOut,
}

impl HeadItems {
    /// Nothing is read. It takes no memory.
    pub(crate) fn new(alloc: Global) -> HeadItems
        ensures { IsRead result nothing_read }
    {
        HeadItems {
            items: SpacedItems::new(alloc),
            left: LeftOut::nothing(),
        }
    }

    /// Adds an item outside of all spans.
    pub(crate) fn push(&mut self, alloc: Global, what: What) -> Result<(), AllocError>
        ensures { OnOk result (Adds self.old self.new (only_items (item_of what ∷ []))) }
    {
        self.items.push(Item {
            spans: Spans::none(alloc),
            what,
        })
    }

    /// Adds a character as it is.
    pub(crate) fn push_letter(&mut self, alloc: Global, letter: char) -> Result<(), AllocError>
        ensures { OnOk result (Adds self.old self.new (only_items (letter_item letter ∷ []))) }
    {
        self.push(alloc, What::Char(letter))
    }

    /// Adds characters, of which white space is spaces that may go.
    pub(crate) fn push_text(&mut self, alloc: Global, text: &str) -> Result<(), AllocError>
        ensures { OnOk result (Adds self.old self.new (letters (chars text.now))) }
    {
        let spans = Spans::none(alloc);
        for letter in text.chars() {
            self.push_char(&spans, letter)?;
        }
        Ok(())
    }

    // Adds a character in spans.
    fn push_char(&mut self, spans: &Spans, letter: char) -> Result<(), AllocError>
        ensures { OnOk result (Adds self.old self.new (one_raw (raw_character spans.now letter))) }
    {
        self.items.push_char(spans, letter)
    }

    /// Adds characters as they are, with spaces for white space.
    pub(crate) fn push_spaced(&mut self, alloc: Global, text: &str) -> Result<(), AllocError>
        ensures { OnOk result (Adds self.old self.new (spaced_letters (chars text.now))) }
    {
        for letter in text.chars() {
            self.push_letter(alloc, spaced(letter))?;
        }
        Ok(())
    }

    /// Leaves more out.
    pub(crate) fn leave_out(&mut self, left: LeftOut)
        ensures { (more : Left) → left ≡ shown more → Adds self.old self.new (only_left more) }
    {
        self.left = self.left.both(left);
    }

    /// The items with the spaces that stay, and what is left out.
    pub(crate) fn into_parts(self) -> (Items<Item>, LeftOut)
        ensures items { (content : ReadContent) → IsRead self content → result.0 ≡ items_of_raw content.raws }
        ensures left { (content : ReadContent) → IsRead self content → result.1 ≡ shown content.left }
    {
        let HeadItems { items, left } = self;
        (items.into_items(), left)
    }
}

// A character, or a space for white space.
fn spaced(letter: char) -> char
    ensures { result ≡ spaced_letter letter }
{
    if is_white(letter) { ' ' } else { letter }
}
