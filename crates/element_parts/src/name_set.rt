//! Names in their order, found by a hash.
ghost use Rattle.std.specs.Prelude.{◌≡◌, [], ◌∷◌, ◌++◌, chars, string_bytes, false, not, if◌then◌else◌, OnOk, OnErr, IfOk};
ghost use Rattle.load_model.specs.Left.{is_one_of};

use indexmap::IndexSet;
use std::alloc::{AllocError, Global};
use std::marker::Model;

/// Names in the order in which they were added, each once. Contracts see the list of them.
#[derive(Drop)]
pub struct NameSet {
    names: IndexSet<String>,
}

impl Model for NameSet {
    ghost use Rattle.std.specs.Prelude.{ℕ, List, map, chars, string_bytes};

    ghost Value = { List (List ℕ) };

    ghost view = { λ set. map (λ name. chars (string_bytes name)) set.names.keys };
}

impl NameSet {
    /// No name. It takes no memory.
    pub fn new(alloc: Global) -> NameSet
        ensures { result ≡ [] }
    {
        NameSet {
            names: IndexSet::new(alloc),
        }
    }

    /// Whether a text is one of the names.
    pub fn has(&self, text: &str) -> bool
        ensures { result ≡ is_one_of self.now (chars text.now) }
    {
        self.names.contains(text)
    }

    /// Adds a name behind the others where it isn't there yet, and answers whether it wasn't. For want of memory all is as before.
    pub fn add(&mut self, alloc: Global, name: &str) -> Result<bool, AllocError>
        ensures is_new { IfOk result (λ is_new. is_new ≡ not (is_one_of self.old (chars name.now))) }
        ensures names { OnOk result (self.new ≡ (if is_one_of self.old (chars name.now) then self.old else self.old ++ chars name.now ∷ [])) }
        ensures kept { OnErr result (self.new ≡ self.old) }
    {
        if self.has(name) {
            return Ok(false);
        }
        self.put(String::from_str(alloc, name)?)?;
        Ok(true)
    }

    // Adds a name that isn't there.
    fn put(&mut self, name: String) -> Result<(), AllocError>
        requires { is_one_of self.old (chars (string_bytes name)) ≡ false }
        ensures names { OnOk result (self.new ≡ self.old ++ chars (string_bytes name) ∷ []) }
        ensures kept { OnErr result (self.new ≡ self.old) }
    {
        self.names.insert(name)?;
        Ok(())
    }
}
