//! What is read before what.
ghost use Rattle.std.specs.Prelude.{◌≡◌, ◌+◌, IfOk, count_by, filter, option_copied};
ghost use Rattle.field_model.specs.Gathered.{is_before, is_up_to};
ghost use Rattle.field_model.specs.Shown.{last_of};
ghost use Rattle.field_walk.specs.Order.{IsRising};

use field_model::{Spot, VariableSet};
use sqlite_items::at;
use std::alloc::AllocError;

// Whether one is read before the other.
pub(crate) fn is_before(one: Spot, other: Spot) -> bool
    ensures { result ≡ is_before one other }
{
    if one.anchor == other.anchor {
        return one.at < other.at;
    }
    one.anchor < other.anchor
}

// Whether one is read before the other, or is it.
pub(crate) fn is_up_to(one: Spot, other: Spot) -> bool
    ensures { result ≡ is_up_to one other }
{
    if one.anchor == other.anchor {
        return one.at <= other.at;
    }
    one.anchor < other.anchor
}

// How many of the spots, which are in reading order, are read up to a place.
pub(crate) fn count_up_to(spots: &[Spot], here: Spot) -> usize
    ensures { IsRising (λ spot. spot) spots.now → result ≡ count_by (λ spot. is_up_to spot here) spots.now }
{
    spots.partition_point(|spot| is_up_to(*spot, here))
}

// The last of the settings, which are in reading order, that is read before a place.
pub(crate) fn last_before(settings: &[VariableSet], here: Spot) -> Option<&VariableSet>
    ensures { IsRising (λ set. set.spot) settings.now → option_copied result ≡ last_of (filter (λ set. is_before set.spot here) settings.now) }
{
    let count = settings.partition_point(|set| is_before(set.spot, here));
    if count == 0 {
        return None;
    }
    at(settings, count - 1)
}

// One more: a count that finds no room finds no memory.
pub(crate) fn one_more(count: usize) -> Result<usize, AllocError>
    ensures { IfOk result (λ next. next ≡ count + 1) }
{
    count.checked_add(1).ok_or(AllocError)
}
