//! The three texts of a document: names, texts and blobs.

ghost use Rattle.std.specs.Prelude.{◌≡◌, [], chars, string_bytes, IfOk, IsTrue, ◌↔◌};
ghost use Rattle.std.specs.Cmp.{partial_equiv_from_equiv};
ghost use Rattle.std.specs.Cmp.Lexicographic.{nat_list_eq_equiv};
ghost use Rattle.std.specs.Str.{bytes_eq, encode_utf8_all};
ghost use Rattle.std.specs.Hash as fed;
ghost use Rattle.std.specs.Hash.{same_Alike};
ghost use Rattle.std.specs.Cmp.Lexicographic.{bytes_decides};

use std::alloc::{AllocError, Global};
use std::default::MadeWith;
use std::hash::{Hash, Hasher};
use std::marker::Model;

/// A name, as of a style, a section or a bookmark. The empty name stands for "none".
#[derive(Debug, Drop)]
pub struct Name {
    text: String,
}

impl Model for Name {
    ghost use Rattle.std.specs.Prelude.{List, ℕ, chars, string_bytes};

    ghost Value = { List ℕ };

    ghost view = { λ n. chars (string_bytes n.text) };
}

/// A text of any characters, as the value of a variable or the row of a page.
#[derive(Debug, Drop)]
pub struct Txt {
    text: String,
}

impl Model for Txt {
    ghost use Rattle.std.specs.Prelude.{List, ℕ, chars, string_bytes};

    ghost Value = { List ℕ };

    ghost view = { λ t. chars (string_bytes t.text) };
}

/// The bytes of a file.
#[derive(Debug, Drop)]
pub struct Blob {
    bytes: Vec<u8>,
}

impl Model for Blob {
    ghost use Rattle.std.specs.Prelude.{List, ℕ};

    ghost Value = { List ℕ };

    ghost view = { λ b. b.bytes.items };
}

impl PartialEq for Name {
    ghost eq = { bytes_eq };

    ghost laws = { partial_equiv_from_equiv nat_list_eq_equiv };

    fn eq(&self, other: &Name) -> bool {
        self.text.as_str() == other.text.as_str()
    }
}

impl Eq for Name {
    ghost laws = { nat_list_eq_equiv };
}

impl PartialEq for Txt {
    ghost eq = { bytes_eq };

    ghost laws = { partial_equiv_from_equiv nat_list_eq_equiv };

    fn eq(&self, other: &Txt) -> bool {
        self.text.as_str() == other.text.as_str()
    }
}

impl Eq for Txt {
    ghost laws = { nat_list_eq_equiv };
}

impl PartialEq for Blob {
    ghost eq = { bytes_eq };

    ghost laws = { partial_equiv_from_equiv nat_list_eq_equiv };

    fn eq(&self, other: &Blob) -> bool {
        self.bytes.as_slice() == other.bytes.as_slice()
    }
}

impl Eq for Blob {
    ghost laws = { nat_list_eq_equiv };
}

impl Name {
    /// The empty one. It takes no memory.
    pub fn none(alloc: Global) -> Name
        ensures { result ≡ [] }
    {
        Name {
            text: String::new(alloc),
        }
    }

    /// The text as a name. It takes no memory.
    pub fn from_list(text: String) -> Name
        ensures { result ≡ chars (string_bytes text) }
    {
        Name { text }
    }

    /// Its characters, lent.
    pub fn get(&self) -> &str
        ensures { chars result.now ≡ self.now }
    {
        self.text.as_str()
    }

    /// The allocator that the name takes its memory from.
    pub fn allocator(&self) -> Global {
        *self.text.allocator()
    }

    pub fn copy(&self) -> Result<Name, AllocError>
        ensures { IfOk result (λ c. c ≡ self.now) }
    {
        let text = self.text.clone()?;
        Ok(Name { text })
    }

    /// Whether both have the same characters.
    pub fn is_same(&self, other: &Name) -> bool
        ensures { IsTrue result ↔ (self.now ≡ other.now) }
    {
        *self == *other
    }
}

impl Txt {
    /// The empty one. It takes no memory.
    pub fn none(alloc: Global) -> Txt
        ensures { result ≡ [] }
    {
        Txt {
            text: String::new(alloc),
        }
    }

    /// The text as a `Txt`. It takes no memory.
    pub fn from_list(text: String) -> Txt
        ensures { result ≡ chars (string_bytes text) }
    {
        Txt { text }
    }

    /// Its characters, lent.
    pub fn get(&self) -> &str
        ensures { chars result.now ≡ self.now }
    {
        self.text.as_str()
    }

    pub fn copy(&self) -> Result<Txt, AllocError>
        ensures { IfOk result (λ c. c ≡ self.now) }
    {
        let text = self.text.clone()?;
        Ok(Txt { text })
    }

    /// Whether both have the same characters.
    pub fn is_same(&self, other: &Txt) -> bool
        ensures { IsTrue result ↔ (self.now ≡ other.now) }
    {
        *self == *other
    }
}

impl Blob {
    /// The bytes as a `Blob`. It takes no memory.
    pub fn from_list(bytes: Vec<u8>) -> Blob
        ensures { result ≡ bytes.items }
    {
        Blob { bytes }
    }

    /// Its bytes, lent.
    pub fn get(&self) -> &[u8]
        ensures { result.now ≡ self.now }
    {
        self.bytes.as_slice()
    }

    pub fn copy(&self) -> Result<Blob, AllocError>
        ensures { IfOk result (λ c. c ≡ self.now) }
    {
        let bytes = Vec::from_slice(*self.bytes.allocator(), self.bytes.as_slice())?;
        Ok(Blob { bytes })
    }

    /// Whether both have the same bytes.
    pub fn is_same(&self, other: &Blob) -> bool
        ensures { IsTrue result ↔ (self.now ≡ other.now) }
    {
        *self == *other
    }
}

/// What a `SmallVec` of names wants of its items.
impl MadeWith<Global> for Name {
    fn made_with(alloc: Global) -> Name {
        Name::none(alloc)
    }
}

/// A name is hashed as its characters in UTF-8, so it may be the key of a map.
impl Hash for Name {
    ghost hash_input = { λ n. fed.str (encode_utf8_all n) };

    ghost respects_eq = { (same_Alike (λ n. fed.str (encode_utf8_all n)) bytes_decides).fed };

    fn hash<H: Hasher>(&self, state: &mut H) {
        self.text.as_str().hash(state);
    }
}

impl Clone for Name {
    ghost is_clone = { λ x y. y ≡ x };

    fn clone(&self) -> Result<Name, AllocError> {
        self.copy()
    }
}

impl Clone for Txt {
    ghost is_clone = { λ x y. y ≡ x };

    fn clone(&self) -> Result<Txt, AllocError> {
        self.copy()
    }
}
