//! The limit of the depth of sections.
ghost use Rattle.std.specs.Prelude.{◌≡◌, ℕ, ◌-◌, ◌==◌, ◌&&◌, ◌++◌, ◌∷◌, [], if◌then◌else◌, nat_eq, List, map, Some, OnOk, IfOk};
ghost use Rattle.indexmap.specs.IndexMap.{get};
ghost use Rattle.load_model.specs.Met as model;
ghost use Rattle.load_model.specs.Offences.{place_if, too_deep};
ghost use Rattle.met_read.specs.Read.{met_of, section_of, outlined};
ghost use Rattle.kept_names.specs.Kept.{IsSame};
ghost use Rattle.section_faults.specs.Nested.{IsNested};
ghost use Rattle.section_faults.specs.Rooms.{Follows, room_at};
ghost use Rattle.section_faults.specs.Sections.{outline};

use crate::sections::section_in;
use indexmap::IndexMap;
use kept_names::Kept;
use met_read::{Met, MetSection};
use std::alloc::{AllocError, Global};

/// The places of the kept sections that stand in too many others, where all that are met are nested.
pub fn deep_sections(alloc: Global, kept: &Kept, met: &[Met<'_>]) -> Result<Vec<u32>, AllocError>
    ensures { IfOk result (λ places. (all : List model.Met) → map met_of met.now ≡ map outlined all → IsSame kept.now (model.kept_of all) → IsNested all → places.items ≡ too_deep all) }
{
    let mut rooms = IndexMap::new(alloc);
    let mut places = Vec::new(alloc);
    'met: for one in met {
        add_met(kept, &mut rooms, &mut places, one)?;
    }
    Ok(places)
}

// Adds what is met, if it is a section.
fn add_met(
    kept: &Kept,
    rooms: &mut IndexMap<u32, u32>,
    places: &mut Vec<u32>,
    one: &Met<'_>,
) -> Result<(), AllocError>
    ensures { OnOk result ((before : List model.MetSection) (this : model.Met) → met_of one.now ≡ outlined this → Follows kept.now.sections (get nat_eq rooms.old) places.old.items before → Follows kept.now.sections (get nat_eq rooms.new) places.new.items (before ++ model.sections_met (this ∷ []))) }
{
    match section_in(one) {
        Some(section) => add_section(kept, rooms, places, section),
        None => Ok(()),
    }
}

// Adds a section: its place where it stands in too many others, and how many more can stand in it.
fn add_section(
    kept: &Kept,
    rooms: &mut IndexMap<u32, u32>,
    places: &mut Vec<u32>,
    section: MetSection<'_>,
) -> Result<(), AllocError>
    ensures { OnOk result ((before : List model.MetSection) (this : model.MetSection) → section_of section.entry ≡ outline this → Follows kept.now.sections (get nat_eq rooms.old) places.old.items before → Follows kept.now.sections (get nat_eq rooms.new) places.new.items (before ++ this ∷ [])) }
{
    let is_kept = kept.keeps_section(section.place);
    let room = room_around(rooms, section.within);
    push_if(places, is_deep(is_kept, room), section.place)?;
    set_room(rooms, section.place, room_inside(is_kept, room))
}

// How many more sections can stand in the one of a place, or where none is around.
fn room_around(rooms: &IndexMap<u32, u32>, within: Option<u32>) -> u32
    ensures { result ≡ room_at (get nat_eq rooms.now) within }
{
    match within {
        Some(place) => match rooms.get(&place) {
            Some(room) => *room,
            None => 32,
        },
        None => 32,
    }
}

// Whether a section is kept and has no room.
fn is_deep(is_kept: bool, room: u32) -> bool
    ensures { result ≡ (is_kept && room == 0) }
{
    is_kept && room == 0
}

// How many more can stand in a section than it has room for itself.
fn room_inside(is_kept: bool, room: u32) -> u32
    ensures { result ≡ room - (if is_kept then 1 else 0) }
{
    if is_kept {
        room.saturating_sub(1)
    } else {
        room
    }
}

// Adds a place, where this holds.
fn push_if(places: &mut Vec<u32>, holds: bool, place: u32) -> Result<(), AllocError>
    ensures { OnOk result (places.new.items ≡ places.old.items ++ place_if holds place) }
{
    if !holds {
        return Ok(());
    }
    places.push(place)?;
    Ok(())
}

// Notes how many more sections can stand in the one of a place.
fn set_room(rooms: &mut IndexMap<u32, u32>, place: u32, room: u32) -> Result<(), AllocError>
    ensures { OnOk result ((other : ℕ) → get nat_eq rooms.new other ≡ (if nat_eq place other then Some room else get nat_eq rooms.old other)) }
{
    rooms.insert(place, room)?;
    Ok(())
}
