//! Texts that keep their first 512 characters, as labels and the texts of fields do.

ghost use Rattle.std.specs.Prelude.{◌≡◌, ◌≤◌, [], ◌∷◌, ◌++◌, length, chars, OnOk, OnErr, IsTrue, ◌↔◌};
ghost use Rattle.field_model.specs.Cut.{cut, kept_characters};

use doc_model::Txt;
use std::alloc::{AllocError, Global};
use std::marker::Model;

/// How many characters of a text are kept.
const KEPT: usize = 512;

/// A text of at most 512 characters. What is added behind them is left out, and costs nothing.
#[derive(Debug, Drop)]
pub struct CutText {
    text: String,
    room: usize,
}

impl Model for CutText {
    ghost use Rattle.std.specs.Prelude.{List, ℕ, ◌≡◌, ◌+◌, length, chars, string_bytes};
    ghost use Rattle.field_model.specs.Cut.{kept_characters};

    ghost Value = { List ℕ };

    ghost view = { λ t. chars (string_bytes t.text) };

    ghost invariant = { λ t. length (chars (string_bytes t.text)) + t.room ≡ kept_characters };
}

impl CutText {
    /// The empty one. It takes no memory.
    pub fn new(alloc: Global) -> CutText
        ensures { result ≡ [] }
    {
        CutText {
            text: String::new(alloc),
            room: KEPT,
        }
    }

    /// Whether nothing more is kept.
    pub fn is_full(&self) -> bool
        ensures full { IsTrue result ↔ (length self.now ≡ kept_characters) }
        ensures short { length self.now ≤ kept_characters }
    {
        self.room == 0
    }

    /// Adds a character, if there is room.
    pub fn push(&mut self, letter: char) -> Result<(), AllocError>
        ensures ok { OnOk result (self.new ≡ cut (self.old ++ letter ∷ [])) }
        ensures err { OnErr result (self.new ≡ self.old) }
    {
        if self.room == 0 {
            return Ok(());
        }
        self.text.push(letter)?;
        self.room -= 1;
        Ok(())
    }

    /// Adds the characters of a text, as long as there is room. It looks at no more of them. After want of memory some
    /// may have been added.
    pub fn push_str(&mut self, text: &str) -> Result<(), AllocError>
        ensures { OnOk result (self.new ≡ cut (self.old ++ chars text.now)) }
    {
        for letter in text.chars().take(self.room) {
            self.push(letter)?;
        }
        Ok(())
    }

    /// The text. It takes no memory.
    pub fn into_txt(self) -> Txt
        ensures same { result ≡ self }
        ensures short { length result ≤ kept_characters }
    {
        let CutText { text, room: _ } = self;
        Txt::from_list(text)
    }
}
