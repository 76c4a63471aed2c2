//! The first thing of each name.
ghost use Rattle.std.specs.Prelude.{◌≡◌, ◌++◌, ◌∷◌, [], map, List, OnOk, IfOk};
ghost use Rattle.std.specs.Option.{option_map};
ghost use Rattle.std.specs.Str.{IsUtf8};
ghost use Rattle.load_model.specs.Met as model;
ghost use Rattle.met_read.specs.Read.{met_of, name_of};
ghost use Rattle.kept_names.specs.Places.{AreSame};
ghost use Rattle.kept_names.specs.Firsts.{Holds, name_met, first_places_met};

use crate::places::Places;
use indexmap::IndexSet;
use met_read::{Met, MetName};
use std::alloc::{AllocError, Global};

/// What has names of its own.
#[derive(Debug, Clone, Copy)]
pub(crate) enum Kind {
    Sections,
    Notes,
    References,
}

/// The names that came before, and the places where each came first.
#[derive(Drop)]
pub(crate) struct Firsts<'a> {
    names: IndexSet<&'a str>,
    places: Places,
}

/// The places of what is the first of its kind and name.
pub(crate) fn first_places(alloc: Global, kind: Kind, met: &[Met<'_>]) -> Result<Places, AllocError>
    ensures { IfOk result (λ places. AreSame places (first_places_met kind (map met_of met.now))) }
{
    let mut firsts = Firsts {
        names: IndexSet::new(alloc),
        places: Places::new(alloc),
    };
    for one in met {
        match named(kind, one) {
            Some(one) => firsts.add(one)?,
            None => {}
        }
    }
    Ok(firsts.places)
}

impl<'a> Firsts<'a> {
    // Adds a thing with a name.
    fn add(&mut self, one: MetName<'a>) -> Result<(), AllocError>
        ensures { OnOk result ((before : List model.MetName) → Holds self.old before → Holds self.new (before ++ name_of one.entry ∷ [])) }
    {
        if self.names.insert(as_text(one.name))? {
            self.places.add(one.place)?;
        }
        Ok(())
    }
}

// The thing with its name, if it is of a kind.
fn named<'a>(kind: Kind, one: &Met<'a>) -> Option<MetName<'a>>
    ensures { option_map name_of result ≡ name_met kind (met_of one.now) }
{
    match (kind, one) {
        (Kind::Sections, Met::Section(section)) => Some(MetName {
            place: section.place,
            name: section.name,
        }),
        (Kind::Notes, Met::Note(note)) => Some(*note),
        (Kind::References, Met::Reference(field)) => Some(*field),
        _ => None,
    }
}

/// The same text.
pub(crate) fn as_text(text: &str) -> &str
    ensures same { result.now ≡ text.now }
    ensures utf8 { IsUtf8 text.now }
{
    text
}
