//! The spots of the items of a list, in their order.
ghost use Rattle.std.specs.Prelude.{◌≡◌, ◌+◌, ◌<◌, ◌≤◌, ℕ, [], ◌∷◌, length, slice_index, OnOk};
ghost use Rattle.std.specs.List.{between};
ghost use Rattle.std.specs.List.Sorted.{IsNonDecreasing};
ghost use Rattle.tagged_list.specs.Entries.{spots_of};
ghost use Rattle.tagged_list.specs.Keeps.{times};

use crate::entry::Entry;
use crate::spot::Spot;
use share_vec::ShareVec;
use std::alloc::AllocError;

/// The first place whose spot is this one or one behind it.
pub fn place_of(spots: &ShareVec<Spot>, spot: &Spot) -> usize
    requires { IsNonDecreasing spots.now }
    ensures within { result ≤ length spots.now }
    ensures below { (k : ℕ) → k < result → slice_index spots.now k < spot.now }
    ensures above { (k : ℕ) → result ≤ k → k < length spots.now → spot.now ≤ slice_index spots.now k }
{
    let mut low = 0;
    let mut high = spots.len();
    'halves: while low < high {
        let middle = low + (high - low) / 2;
        if spots.get(middle).is_before(spot) {
            low = middle + 1;
        } else {
            high = middle;
        }
    }
    low
}

// Takes a spot out.
fn take_out(spots: &mut ShareVec<Spot>, spot: &Spot) -> Result<(), AllocError>
    requires sorted { IsNonDecreasing spots.old }
    requires there { 0 < times spot.now spots.old }
    ensures sorted { OnOk result (IsNonDecreasing spots.new) }
    ensures left { OnOk result ((x : ℕ) → times x spots.new + times x (spot.now ∷ []) ≡ times x spots.old) }
{
    let place = place_of(spots, spot);
    spots.remove(place)?;
    Ok(())
}

// Puts a spot in.
#[tactic(auto, using(crate::proofs::Counts::times_insert))]
fn put_in(spots: &mut ShareVec<Spot>, spot: Spot) -> Result<(), AllocError>
    requires sorted { IsNonDecreasing spots.old }
    ensures sorted { OnOk result (IsNonDecreasing spots.new) }
    ensures more { OnOk result ((x : ℕ) → times x spots.new ≡ times x spots.old + times x (spot ∷ [])) }
{
    let place = place_of(spots, &spot);
    match spots.insert(place, spot) {
        Ok(()) => Ok(()),
        Err(_spot) => Err(AllocError),
    }
}

/// Takes the spots of the items from `from` up to `to` out.
pub fn forget<T: Drop>(
    spots: &mut ShareVec<Spot>,
    items: &ShareVec<Entry<T>>,
    from: usize,
    to: usize,
) -> Result<(), AllocError>
    requires in_order { from ≤ to }
    requires in_range { to ≤ length items.now }
    requires sorted { IsNonDecreasing spots.old }
    requires there { (x : ℕ) → times x (spots_of (between from to items.now)) ≤ times x spots.old }
    ensures sorted { OnOk result (IsNonDecreasing spots.new) }
    ensures left { OnOk result ((x : ℕ) → times x spots.new + times x (spots_of (between from to items.now)) ≡ times x spots.old) }
{
    for at in from..to {
        match items.get(at).spot() {
            None => {}
            Some(spot) => take_out(spots, &spot)?,
        }
    }
    Ok(())
}

/// Puts the spots of items in.
pub fn remember<T: Drop>(spots: &mut ShareVec<Spot>, entries: &[Entry<T>]) -> Result<(), AllocError>
    requires sorted { IsNonDecreasing spots.old }
    ensures sorted { OnOk result (IsNonDecreasing spots.new) }
    ensures more { OnOk result ((x : ℕ) → times x spots.new ≡ times x spots.old + times x (spots_of entries.now)) }
{
    for entry in entries {
        match entry.spot() {
            None => {}
            Some(spot) => put_in(spots, spot)?,
        }
    }
    Ok(())
}
