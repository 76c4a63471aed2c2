//! The index of a list of styles by family and name.
ghost use Rattle.std.specs.Prelude.{◌≡◌, ◌<◌, IfOk, OnOk, Some, None, []};
ghost use Rattle.doc_model.specs.declared.style.Family.{Family};
ghost use Rattle.style_tree.specs.Index.{place_in, entries_of, room_for, SameIndex, Notes, shifted_entries};

use crate::places::{Shift, forget, note, shift_all};
use doc_model::{Family, Name};
use indexmap::IndexMap;
use std::alloc::{AllocError, Global};

/// For each family, the place of each style by its name.
#[derive(Drop)]
pub struct Index {
    paragraph: IndexMap<Name, usize>,
    text: IndexMap<Name, usize>,
    section: IndexMap<Name, usize>,
}

impl Index {
    /// An index of no style. It takes no memory.
    pub fn new(alloc: Global) -> Index
        ensures { (of : Family) → entries_of of result ≡ [] }
    {
        Index {
            paragraph: IndexMap::new(alloc),
            text: IndexMap::new(alloc),
            section: IndexMap::new(alloc),
        }
    }

    /// The place of a style. It takes no memory.
    pub fn find(&self, family: Family, name: &Name) -> Option<usize>
        ensures { result ≡ place_in self.now family name.now }
    {
        let places = match family {
            Family::Paragraph => &self.paragraph,
            Family::Text => &self.text,
            Family::Section => &self.section,
        };
        places.get(name).copied()
    }

    pub fn copy(&self) -> Result<Index, AllocError>
        ensures { IfOk result (λ copy. SameIndex self.now copy) }
    {
        let paragraph = self.paragraph.clone()?;
        let text = self.text.clone()?;
        let section = self.section.clone()?;
        Ok(Index {
            paragraph,
            text,
            section,
        })
    }

    /// Makes room for one more name of the family.
    pub fn make_room(&mut self, family: Family) -> Result<(), AllocError>
        ensures same { SameIndex self.old self.new }
        ensures room { OnOk result (0 < room_for family self.new) }
    {
        match family {
            Family::Paragraph => self.paragraph.reserve(1),
            Family::Text => self.text.reserve(1),
            Family::Section => self.section.reserve(1),
        }
    }

    /// Notes the place of a style, for whose name there is room.
    pub fn add(&mut self, family: Family, name: Name, place: usize)
        requires { 0 < room_for family self.old }
        ensures { Notes self.old family name (Some place) self.new }
    {
        match family {
            Family::Paragraph => note(&mut self.paragraph, name, place),
            Family::Text => note(&mut self.text, name, place),
            Family::Section => note(&mut self.section, name, place),
        }
    }

    /// Forgets the place of a style.
    pub fn forget(&mut self, family: Family, name: &Name)
        ensures { Notes self.old family name.now None self.new }
    {
        match family {
            Family::Paragraph => forget(&mut self.paragraph, name),
            Family::Text => forget(&mut self.text, name),
            Family::Section => forget(&mut self.section, name),
        }
    }

    /// Shifts the places of all styles.
    pub fn shift(&mut self, shift: Shift)
        ensures { (of : Family) → entries_of of self.new ≡ shifted_entries shift (entries_of of self.old) }
    {
        shift_all(&mut self.paragraph, shift);
        shift_all(&mut self.text, shift);
        shift_all(&mut self.section, shift);
    }
}
