//! Keys: all that the lines of a paragraph depend on.

ghost use Rattle.std.specs.Prelude.{◌≡◌, ◌<◌, ◌^◌, IfOk, IsTrue, ◌↔◌, length, string_bytes};
ghost use Rattle.std.specs.Cmp.{partial_equiv_from_equiv};
ghost use Rattle.std.specs.Cmp.Lexicographic.{nat_list_eq_equiv};
ghost use Rattle.std.specs.Str.{bytes_eq};

use doc_model::{Align, List, TabStop};
use std::alloc::AllocError;
use std::marker::Model;

/// The text that a paragraph shows, of fewer than 2^32 bytes. Contracts see its bytes in UTF-8.
#[derive(Debug, Drop)]
pub struct ShownText {
    text: String,
}

impl Model for ShownText {
    ghost use Rattle.std.specs.Prelude.{List, ℕ, ◌<◌, ◌^◌, length, string_bytes};

    ghost Value = { List ℕ };

    ghost view = { λ t. string_bytes t.text };

    ghost invariant = { λ t. length (string_bytes t.text) < 2 ^ 32 };
}

impl PartialEq for ShownText {
    ghost eq = { bytes_eq };

    ghost laws = { partial_equiv_from_equiv nat_list_eq_equiv };

    fn eq(&self, other: &ShownText) -> bool {
        self.text.as_str() == other.text.as_str()
    }
}

impl Eq for ShownText {
    ghost laws = { nat_list_eq_equiv };
}

/// All that the lines of a paragraph depend on. Lengths are in units, 914400 to an inch.
#[derive(Debug, Drop, PartialEq, Eq)]
pub struct Key {
    /// Whether the paragraph has no line.
    pub hidden: bool,
    /// Its label and the text that is shown of it; U+A is a break and U+9 a tab.
    pub text: ShownText,
    /// The places in `text`, in bytes, of the first characters of note citations, in order.
    pub notes: List<u32>,
    /// The columns of its page.
    pub columns: u32,
    /// The left margin.
    pub left: i32,
    /// The right margin.
    pub right: i32,
    /// The indent of the first line.
    pub indent: i32,
    /// The level of its list place; 0 is none.
    pub level: u8,
    /// Where the lines stand.
    pub align: Align,
    /// The tab stops.
    pub tabs: List<TabStop>,
}

/// A line of a key: the bytes of its text from `from` to before `to`. The first line is the one from 0.
#[derive(Debug, Clone, Copy, PartialEq, Eq)]
pub struct Line {
    /// The place of its first byte.
    pub from: u32,
    /// The place behind its last byte.
    pub to: u32,
}

impl ShownText {
    /// The text as a shown one. It takes no memory.
    pub fn from_text(text: String) -> ShownText
        requires { length (string_bytes text) < 2 ^ 32 }
        ensures { result ≡ string_bytes text }
    {
        ShownText { text }
    }

    /// The text, lent.
    pub fn get(&self) -> &str
        ensures text { result.now ≡ self.now }
        ensures short { length result.now < 2 ^ 32 }
    {
        self.text.as_str()
    }

    pub fn copy(&self) -> Result<ShownText, AllocError>
        ensures { IfOk result (λ c. c ≡ self.now) }
    {
        let text = self.text.clone()?;
        Ok(ShownText { text })
    }

    /// Whether both have the same characters.
    pub fn is_same(&self, other: &ShownText) -> bool
        ensures { IsTrue result ↔ (self.now ≡ other.now) }
    {
        *self == *other
    }
}

impl Key {
    pub fn copy(&self) -> Result<Key, AllocError>
        ensures { IfOk result (λ c. c ≡ self.now) }
    {
        let text = self.text.copy()?;
        let notes = List::from_slice(self.notes.allocator(), self.notes.get())?;
        let tabs = List::from_slice(self.tabs.allocator(), self.tabs.get())?;
        Ok(Key {
            hidden: self.hidden,
            text,
            notes,
            columns: self.columns,
            left: self.left,
            right: self.right,
            indent: self.indent,
            level: self.level,
            align: self.align,
            tabs,
        })
    }

    pub fn is_same(&self, other: &Key) -> bool
        ensures { IsTrue result ↔ (self.now ≡ other.now) }
    {
        if self.hidden != other.hidden {
            return false;
        }
        if !self.text.is_same(&other.text) {
            return false;
        }
        if !self.notes.is_same(&other.notes) {
            return false;
        }
        if self.columns != other.columns {
            return false;
        }
        if self.left != other.left {
            return false;
        }
        if self.right != other.right {
            return false;
        }
        if self.indent != other.indent {
            return false;
        }
        if self.level != other.level {
            return false;
        }
        if self.align != other.align {
            return false;
        }
        self.tabs.is_same(&other.tabs)
    }
}
