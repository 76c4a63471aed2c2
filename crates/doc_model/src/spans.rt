//! The text styles round an item.

ghost use Rattle.std.specs.Prelude.{◌≡◌, [], IfOk, IsTrue, ◌↔◌};
ghost use Rattle.std.specs.Cmp.{partial_equiv_from_equiv};
ghost use Rattle.std.specs.Cmp.Lexicographic.{pointwise, lists_equiv, nat_list_eq_equiv};
ghost use Rattle.std.specs.Str.{bytes_eq};

use crate::texts::Name;
use smallvec::SmallVec;
use std::alloc::{AllocError, Global};
use std::marker::Model;

/// The names of the text styles round an item ('text:span' with its 'text:style-name'),
/// outermost first. One name needs no memory of its own.
#[derive(Debug, Drop)]
pub struct Spans {
    names: SmallVec<Name, 1>,
}

impl Model for Spans {
    ghost use Rattle.std.specs.Prelude.{List, ℕ};

    ghost Value = { List (List ℕ) };

    ghost view = { λ s. s.names.items };
}

impl PartialEq for Spans {
    ghost eq = { pointwise bytes_eq };

    ghost laws = { partial_equiv_from_equiv (lists_equiv nat_list_eq_equiv) };

    fn eq(&self, other: &Spans) -> bool {
        self.names.as_slice() == other.names.as_slice()
    }
}

impl Eq for Spans {
    ghost laws = { lists_equiv nat_list_eq_equiv };
}

impl Spans {
    /// No span. It takes no memory.
    pub fn none(alloc: Global) -> Spans
        ensures { result ≡ [] }
    {
        Spans {
            names: SmallVec::new(alloc),
        }
    }

    /// The names as spans. It takes no memory.
    pub fn from_list(names: SmallVec<Name, 1>) -> Spans
        ensures { result ≡ names.items }
    {
        Spans { names }
    }

    /// The allocator that the list takes its memory from.
    pub fn allocator(&self) -> Global {
        *self.names.allocator()
    }

    /// Its names, lent.
    pub fn get(&self) -> &[Name]
        ensures { result.now ≡ self.now }
    {
        self.names.as_slice()
    }

    pub fn copy(&self) -> Result<Spans, AllocError>
        ensures { IfOk result (λ c. c ≡ self.now) }
    {
        let mut names = SmallVec::new(self.allocator());
        for name in self.names.as_slice() {
            names.push(name.copy()?)?;
        }
        Ok(Spans { names })
    }

    /// Whether both have the same names in the same order.
    pub fn is_same(&self, other: &Spans) -> bool
        ensures { IsTrue result ↔ (self.now ≡ other.now) }
    {
        *self == *other
    }
}
