//! Names, values, runs of characters and attributes.

ghost use Rattle.std.specs.Prelude.{◌≡◌, [], ◌∷◌, ◌++◌, chars, string_bytes, OnOk, OnErr, IsTrue, ◌↔◌};

use std::alloc::{AllocError, Global};
use std::marker::Model;

/// A name, a value or a run of characters, which contracts see as the list of its characters.
#[derive(Debug, Drop)]
pub struct Word {
    text: String,
}

impl Model for Word {
    ghost use Rattle.std.specs.Prelude.{List, ℕ, chars, string_bytes};

    ghost Value = { List ℕ };

    ghost view = { λ w. chars (string_bytes w.text) };
}

impl Word {
    /// A word without a character. It takes no memory.
    pub fn new(alloc: Global) -> Word
        ensures { result ≡ [] }
    {
        Word {
            text: String::new(alloc),
        }
    }

    /// The text as a word. It takes no memory.
    pub fn from_text(text: String) -> Word
        ensures { result ≡ chars (string_bytes text) }
    {
        Word { text }
    }

    /// Its text, lent.
    pub fn get(&self) -> &str
        ensures { chars result.now ≡ self.now }
    {
        self.text.as_str()
    }

    /// Whether it has no character.
    pub fn is_empty(&self) -> bool
        ensures { IsTrue result ↔ (self.now ≡ []) }
    {
        self.text.is_empty()
    }

    /// Adds a text at the end. For want of memory the word stays as it was.
    pub fn push_str(&mut self, text: &str) -> Result<(), AllocError>
        ensures ok { OnOk result (self.new ≡ self.old ++ chars text.now) }
        ensures err { OnErr result (self.new ≡ self.old) }
    {
        self.text.push_str(text)
    }

    /// Adds a character at the end. For want of memory the word stays as it was.
    pub fn push(&mut self, c: char) -> Result<(), AllocError>
        ensures ok { OnOk result (self.new ≡ self.old ++ c ∷ []) }
        ensures err { OnErr result (self.new ≡ self.old) }
    {
        self.text.push(c)
    }
}

/// An attribute. Two attributes of one element may have one name.
#[derive(Debug, Drop)]
pub struct Attr {
    /// The name as it stands, with its prefix.
    pub name: Word,
    /// The value, with its references read and its white space as spaces.
    pub value: Word,
}

/// Attributes in their order, which contracts see as a list.
#[derive(Debug, Drop)]
pub struct Attrs {
    attrs: Vec<Attr>,
}

impl Model for Attrs {
    ghost use Rattle.std.specs.Prelude.{List};
    ghost use Rattle.std.specs.Coded.{coded_list};
    ghost use Rattle.markup_nodes.specs.declared.words.Attr.{Attr};

    ghost Value = { List Attr };

    ghost view = { λ a. a.attrs.items };
}

impl Attrs {
    /// The attributes of a vector. It takes no memory.
    pub fn from_vec(attrs: Vec<Attr>) -> Attrs
        ensures { result ≡ attrs.items }
    {
        Attrs { attrs }
    }

    /// The attributes as a vector. It takes no memory.
    pub fn into_vec(self) -> Vec<Attr>
        ensures { result.items ≡ self }
    {
        self.attrs
    }

    /// The attributes, lent.
    pub fn get(&self) -> &[Attr]
        ensures { result.now ≡ self.now }
    {
        self.attrs.as_slice()
    }
}
