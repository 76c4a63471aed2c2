//! Lists by name.
ghost use Rattle.std.specs.Prelude.{◌≡◌, [], List, ℕ, Bool, OnOk, OnErr, IsSome, ◌&&◌};
ghost use Rattle.std.specs.Str.{bytes_eq};
ghost use Rattle.indexmap.specs.IndexMap.{get};
ghost use Rattle.field_model.specs.Fields.{and_then, when, is_named};
ghost use Rattle.field_model.specs.Gathered.{same_text};
ghost use Rattle.field_walk.specs.Lists.{list_at, list_of, list_in};
ghost use Rattle.field_walk.specs.Steps.{without_last};

use doc_model::Name;
use indexmap::IndexMap;
use std::alloc::{AllocError, Global};

/// Lists of values, each under a name.
#[derive(Debug, Drop)]
pub(crate) struct Groups<T> {
    pub(crate) lists: IndexMap<Name, Vec<T>>,
}

/// Lists of values by names, those of the body and those of all notes.
#[derive(Debug, Drop)]
pub(crate) struct Texts<T> {
    pub(crate) body: Groups<T>,
    pub(crate) notes: Groups<T>,
}

impl<T> Groups<T> {
    // No list. It takes no memory.
    pub(crate) fn new(alloc: Global) -> Groups<T>
        ensures { (name : List ℕ) → list_of result name ≡ [] }
    {
        Groups {
            lists: IndexMap::new(alloc),
        }
    }

    // The values under a name, in the order in which they came.
    pub(crate) fn get(&self, name: &Name) -> &[T]
        ensures { result.now ≡ list_of self.now name.now }
    {
        match self.lists.get(name) {
            Some(list) => list.as_slice(),
            None => &[],
        }
    }
}

impl<T: Drop> Groups<T> {
    // Adds a value to the list of a name.
    pub(crate) fn push(&mut self, alloc: Global, name: &Name, value: T) -> Result<(), AllocError>
        ensures ok { OnOk result ((asked : List ℕ) → list_of self.new asked ≡ and_then (list_of self.old asked) (when (bytes_eq asked name.now) value)) }
        ensures err { OnErr result ((asked : List ℕ) → list_of self.new asked ≡ list_of self.old asked) }
    {
        if self.lists.contains_key(name) {
            return push_behind(&mut self.lists, name, value);
        }
        let mut list = Vec::new(alloc);
        list.push(value)?;
        self.lists.insert(name.copy()?, list)?;
        Ok(())
    }

    // Adds a value to the list of a name, if that isn't empty.
    pub(crate) fn push_named(
        &mut self,
        alloc: Global,
        name: &Name,
        value: T,
    ) -> Result<(), AllocError>
        ensures ok { OnOk result ((asked : List ℕ) → list_of self.new asked ≡ and_then (list_of self.old asked) (when (is_named name.now && bytes_eq asked name.now) value)) }
        ensures err { OnErr result ((asked : List ℕ) → list_of self.new asked ≡ list_of self.old asked) }
    {
        let none = Name::none(alloc);
        if name.is_same(&none) {
            return Ok(());
        }
        self.push(alloc, name, value)
    }

    // Takes back the last value of a name.
    pub(crate) fn pop(&mut self, name: &Name)
        ensures { (asked : List ℕ) → list_of self.new asked ≡ without_last (bytes_eq asked name.now) (list_of self.old asked) }
    {
        if self.lists.contains_key(name) {
            pop_behind(&mut self.lists, name);
        }
    }

    // Takes back the last value of a name, if that isn't empty.
    pub(crate) fn pop_named(&mut self, alloc: Global, name: &Name)
        ensures { (asked : List ℕ) → list_of self.new asked ≡ without_last (is_named name.now && bytes_eq asked name.now) (list_of self.old asked) }
    {
        let none = Name::none(alloc);
        if name.is_same(&none) {
            return;
        }
        self.pop(name);
    }
}

impl<T> Texts<T> {
    // No list. It takes no memory.
    pub(crate) fn new(alloc: Global) -> Texts<T>
        ensures { (noted : Bool) (name : List ℕ) → list_in result noted name ≡ [] }
    {
        Texts {
            body: Groups::new(alloc),
            notes: Groups::new(alloc),
        }
    }
}

impl<T> Texts<T> {
    // The values under a name, in the order in which they came.
    pub(crate) fn get(&self, in_note: bool, name: &Name) -> &[T]
        ensures { result.now ≡ list_in self.now in_note name.now }
    {
        if in_note {
            self.notes.get(name)
        } else {
            self.body.get(name)
        }
    }
}

impl<T: Drop> Texts<T> {
    // Adds a value to the list of a name.
    pub(crate) fn push(
        &mut self,
        alloc: Global,
        in_note: bool,
        name: &Name,
        value: T,
    ) -> Result<(), AllocError>
        ensures ok { OnOk result ((noted : Bool) (asked : List ℕ) → list_in self.new noted asked ≡ and_then (list_in self.old noted asked) (when (same_text noted in_note && bytes_eq asked name.now) value)) }
        ensures err { OnErr result ((noted : Bool) (asked : List ℕ) → list_in self.new noted asked ≡ list_in self.old noted asked) }
    {
        if in_note {
            self.notes.push(alloc, name, value)
        } else {
            self.body.push(alloc, name, value)
        }
    }

    // Takes back the last value of a name.
    pub(crate) fn pop(&mut self, in_note: bool, name: &Name)
        ensures { (noted : Bool) (asked : List ℕ) → list_in self.new noted asked ≡ without_last (same_text noted in_note && bytes_eq asked name.now) (list_in self.old noted asked) }
    {
        if in_note {
            self.notes.pop(name);
        } else {
            self.body.pop(name);
        }
    }
}

// Adds a value to the list that a name has.
fn push_behind<T: Drop>(
    lists: &mut IndexMap<Name, Vec<T>>,
    name: &Name,
    value: T,
) -> Result<(), AllocError>
    requires { IsSome (get bytes_eq lists.old name.now) }
    ensures ok { OnOk result ((asked : List ℕ) → list_at lists.new asked ≡ and_then (list_at lists.old asked) (when (bytes_eq asked name.now) value)) }
    ensures err { OnErr result ((asked : List ℕ) → list_at lists.new asked ≡ list_at lists.old asked) }
{
    if let Some(list) = lists.get_mut(name) {
        list.push(value)?;
        return Ok(());
    }
    unreachable!()
}

// Takes back the last value of the list that a name has.
fn pop_behind<T: Drop>(lists: &mut IndexMap<Name, Vec<T>>, name: &Name)
    requires { IsSome (get bytes_eq lists.old name.now) }
    ensures { (asked : List ℕ) → list_at lists.new asked ≡ without_last (bytes_eq asked name.now) (list_at lists.old asked) }
{
    if let Some(list) = lists.get_mut(name) {
        list.pop();
        return;
    }
    unreachable!()
}
