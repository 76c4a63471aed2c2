//! The first offence.
ghost use Rattle.std.specs.Prelude.{◌≡◌, ◌≤◌, ◌++◌, ◌∷◌, [], ℕ, List, slice_get, option_to_list, AllPairs};
ghost use Rattle.load_model.specs.declared.offence.TreeOffence.{TreeOffence};
ghost use Rattle.load_model.specs.Offences.{least, offences_at};

use load_model::{TreeOffence, TreeOffenceKind};
use std::marker::Model;

/// The offence at the least place of those that were added, and of those at one place the one that was added first.
/// Offences of the kinds are to be added in the order of the kinds.
#[derive(Debug, Drop)]
pub struct FirstFault {
    offence: Option<TreeOffence>,
}

impl Model for FirstFault {
    ghost use Rattle.std.specs.Prelude.{Option};
    ghost use Rattle.load_model.specs.declared.offence.TreeOffence.{TreeOffence};

    ghost Value = { Option TreeOffence };

    ghost view = { λ first. first.offence };
}

impl FirstFault {
    /// No offence.
    pub fn none() -> FirstFault
        ensures { result ≡ least [] }
    {
        FirstFault { offence: None }
    }

    /// The offence, if one was added.
    pub fn get(&self) -> Option<TreeOffence>
        ensures { result ≡ self.now }
    {
        self.offence
    }

    /// Adds an offence.
    pub fn add(&mut self, kind: TreeOffenceKind, place: u32)
        ensures { (before : List TreeOffence) → self.old ≡ least before → self.new ≡ least (before ++ record { kind = kind; place = place } ∷ []) }
    {
        self.offence = first_of(self.offence, TreeOffence { kind, place });
    }

    /// Adds an offence, if there is one.
    pub fn add_at(&mut self, kind: TreeOffenceKind, place: Option<u32>)
        ensures { (before : List TreeOffence) → self.old ≡ least before → self.new ≡ least (before ++ offences_at kind (option_to_list place)) }
    {
        match place {
            Some(place) => self.add(kind, place),
            None => {}
        }
    }

    /// Adds offences of one kind.
    pub fn add_all(&mut self, kind: TreeOffenceKind, places: &[u32])
        ensures { (before : List TreeOffence) → self.old ≡ least before → self.new ≡ least (before ++ offences_at kind places.now) }
    {
        'places: for place in places {
            self.add(kind, *place);
        }
    }

    /// Adds the first of offences whose places rise: the others never count.
    pub fn add_rising(&mut self, kind: TreeOffenceKind, first: Option<u32>)
        ensures { (before : List TreeOffence) (places : List ℕ) → self.old ≡ least before → AllPairs (λ place other. place ≤ other) places → first ≡ slice_get places 0 → self.new ≡ least (before ++ offences_at kind places) }
    {
        self.add_at(kind, first);
    }
}

// The offence at the lesser place, and at one place the first.
fn first_of(first: Option<TreeOffence>, other: TreeOffence) -> Option<TreeOffence>
    ensures { (before : List TreeOffence) → first ≡ least before → result ≡ least (before ++ other ∷ []) }
{
    match first {
        Some(offence) => {
            if other.place < offence.place {
                return Some(other);
            }
            Some(offence)
        }
        None => Some(other),
    }
}
