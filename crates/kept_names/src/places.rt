//! Places of a file.
ghost use Rattle.std.specs.Prelude.{◌≡◌, ◌++◌, ◌∷◌, [], OnOk};
ghost use Rattle.load_model.specs.Met.{is_at};
ghost use Rattle.kept_names.specs.Places.{AreSame};

use indexmap::IndexSet;
use std::alloc::{AllocError, Global};
use std::marker::Model;

/// Some places of a file, which contracts see as a list.
#[derive(Drop)]
pub struct Places {
    places: IndexSet<u32>,
}

impl Model for Places {
    ghost use Rattle.std.specs.Prelude.{List, ℕ};

    ghost Value = { List ℕ };

    ghost view = { λ one. one.places.keys };
}

impl Places {
    /// No place. It takes no memory.
    pub fn new(alloc: Global) -> Places
        ensures { result ≡ [] }
    {
        Places {
            places: IndexSet::new(alloc),
        }
    }

    /// Whether a place is one of these.
    pub fn has(&self, place: u32) -> bool
        ensures { result ≡ is_at self.now place }
    {
        self.places.contains(&place)
    }

    /// Makes a place one of these.
    pub fn add(&mut self, place: u32) -> Result<(), AllocError>
        ensures { OnOk result (AreSame self.new (self.old ++ place ∷ [])) }
    {
        self.places.insert(place)?;
        Ok(())
    }
}
