//! Limits of paragraphs and items.
ghost use Rattle.std.specs.Prelude.{◌≡◌, ◌≤◌, ◌+◌, ◌++◌, ◌∷◌, [], map, nat_lt, slice_get, option_to_list, OnOk, IfOk};
ghost use Rattle.std.specs.Option.{option_map};
ghost use Rattle.doc_model.specs.Limits.{limit_number};
ghost use Rattle.doc_model.specs.declared.refusal.Limit.TheVariants as limit;
ghost use Rattle.load_model.specs.Offences as model;
ghost use Rattle.load_model.specs.Offences.{beyond};
ghost use Rattle.paragraph_faults.specs.Counts.{counted_of};

use crate::counted::Counted;
use std::alloc::{AllocError, Global};

/// The place of the first paragraph with which there are too many.
#[tactic(auto, using(crate::proofs::LimitLemmas::place_beyond))]
pub fn paragraph_beyond(counted: &[Counted]) -> Option<u32>
    ensures { option_to_list result ≡ beyond limit.Paragraphs (map (λ par. par.place) (map counted_of counted.now)) }
{
    place_at(counted, 65536)
}

// The place of the paragraph behind so many, if there is one.
fn place_at(counted: &[Counted], count: usize) -> Option<u32>
    ensures { result ≡ option_map (λ par. par.place) (slice_get counted.now count) }
{
    match counted.get(count) {
        Some(par) => Some(par.place),
        None => None,
    }
}

/// The places of the paragraphs that have too many items.
pub fn too_long(alloc: Global, counted: &[Counted]) -> Result<Vec<u32>, AllocError>
    ensures { IfOk result (λ places. places.items ≡ model.too_long (map counted_of counted.now)) }
{
    let mut places = Vec::new(alloc);
    'counted: for par in counted {
        push_long(&mut places, *par)?;
    }
    Ok(places)
}

// Adds the place of a paragraph that has too many items.
fn push_long(places: &mut Vec<u32>, par: Counted) -> Result<(), AllocError>
    ensures { OnOk result (places.new.items ≡ places.old.items ++ model.too_long (counted_of par ∷ [])) }
{
    if !has_too_many(par.items) {
        return Ok(());
    }
    places.push(par.place)?;
    Ok(())
}

// Whether so many items are too many for one paragraph.
fn has_too_many(items: usize) -> bool
    ensures { result ≡ nat_lt (limit_number limit.ItemsOfParagraph) items }
{
    items > 32768
}

/// The place of the first paragraph with which there are too many items.
pub fn first_too_many(counted: &[Counted]) -> Option<u32>
    ensures { option_to_list result ≡ model.first_too_many 0 (map counted_of counted.now) }
{
    let mut before = 0;
    'counted: for par in counted {
        if passes(before, par.items) {
            return Some(par.place);
        }
        before += par.items;
    }
    None
}

// Whether so many items behind others pass the limit of all.
fn passes(before: usize, items: usize) -> bool
    requires { before ≤ 4194304 }
    ensures { result ≡ nat_lt 4194304 (before + items) }
{
    items > 4194304 - before
}
