//! Declarations in the order of the file.
ghost use Rattle.std.specs.Prelude.{◌≡◌, ◌≤◌, ◌++◌, map, take, drop, length, option_to_list, slice_get, IfOk, OnOk};
ghost use Rattle.doc_model.specs.declared.refusal.Limit.TheVariants as limit;
ghost use Rattle.load_model.specs.Offences.{beyond, merged};
ghost use Rattle.declared_names.specs.Merge.{kept_places, used_places, IsRising, below};

use crate::names::DeclaredNames;
use crate::stated::Stated;
use met_read::MetName;
use std::alloc::{AllocError, Global};

/// The place of the first declared name with which there are too many, in the order of the file: first the declarations
/// of both kinds, and then the first uses. The places of variables rise.
pub fn declaration_beyond(
    alloc: Global,
    variables: &DeclaredNames<'_>,
    sequences: &DeclaredNames<'_>,
) -> Result<Option<u32>, AllocError>
    ensures { IfOk result (λ place. IsRising (kept_places variables.now) → IsRising (used_places variables.now) → option_to_list place ≡ beyond limit.Declarations (merged (kept_places variables.now) (kept_places sequences.now) ++ merged (used_places variables.now) (used_places sequences.now))) }
{
    let mut places = Vec::new(alloc);
    let kept_variables = places_stated(alloc, variables.kept.as_slice())?;
    let kept_sequences = places_stated(alloc, sequences.kept.as_slice())?;
    push_merged(
        &mut places,
        kept_variables.as_slice(),
        kept_sequences.as_slice(),
    )?;
    let used_variables = places_used(alloc, variables.used.as_slice())?;
    let used_sequences = places_used(alloc, sequences.used.as_slice())?;
    push_merged(
        &mut places,
        used_variables.as_slice(),
        used_sequences.as_slice(),
    )?;
    Ok(place_at(places.as_slice(), 4096))
}

// The places of declarations.
fn places_stated(alloc: Global, stated: &[Stated<'_>]) -> Result<Vec<u32>, AllocError>
    ensures { IfOk result (λ places. places.items ≡ map (λ one. one.place) stated.now) }
{
    let mut places = Vec::with_capacity(alloc, stated.len())?;
    'stated: for one in stated {
        places.push(one.place)?;
    }
    Ok(places)
}

// The places of uses.
fn places_used(alloc: Global, used: &[MetName<'_>]) -> Result<Vec<u32>, AllocError>
    ensures { IfOk result (λ places. places.items ≡ map (λ one. one.place) used.now) }
{
    let mut places = Vec::with_capacity(alloc, used.len())?;
    'used: for one in used {
        places.push(one.place)?;
    }
    Ok(places)
}

// Adds two lists of places, of which the first rises, as one that rises.
fn push_merged(places: &mut Vec<u32>, one: &[u32], other: &[u32]) -> Result<(), AllocError>
    ensures { OnOk result (IsRising one.now → places.new.items ≡ places.old.items ++ merged one.now other.now) }
{
    let mut left = one;
    'other: for place in other {
        left = push_below(places, left, *place)?;
        places.push(*place)?;
    }
    places.extend_from_slice(left)?;
    Ok(())
}

// Adds the places at the front that stand before this one, and answers the others.
fn push_below<'a>(
    places: &mut Vec<u32>,
    left: &'a [u32],
    place: u32,
) -> Result<&'a [u32], AllocError>
    ensures added { OnOk result (places.new.items ≡ places.old.items ++ take (below place left.entry.now) left.entry.now) }
    ensures rest { IfOk result (λ rest. rest.now ≡ drop (below place left.entry.now) left.entry.now) }
{
    let (front, behind) = left.split_at(count_below(left, place));
    places.extend_from_slice(front)?;
    Ok(behind)
}

// How many places at the front stand before this one.
fn count_below(places: &[u32], place: u32) -> usize
    ensures count { result ≡ below place places.now }
    ensures within { result ≤ length places.now }
{
    let mut count = 0;
    'places: for other in places {
        if *other >= place {
            return count;
        }
        count += 1;
    }
    count
}

// The place behind so many, if there is one.
fn place_at(places: &[u32], count: usize) -> Option<u32>
    ensures { result ≡ slice_get places.now count }
{
    match places.get(count) {
        Some(place) => Some(*place),
        None => None,
    }
}
