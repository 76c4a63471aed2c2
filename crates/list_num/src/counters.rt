//! The counters of one style's levels.

ghost use Rattle.std.specs.Prelude.{◌≡◌, ℕ, ◌≤◌, IfOk};
ghost use Rattle.field_model.specs.Labels.{clears, is_item_of};
ghost use Rattle.list_num.specs.Counters.{count_in, count_behind, place_of};

use std::alloc::AllocError;

/// How many items of each level count, from level 1 on.
pub(crate) type Counters = [u32; 10];

/// A paragraph as the style that counts it sees it.
#[derive(Clone, Copy)]
pub(crate) struct Step {
    /// The level, 1 to 10.
    pub(crate) level: u8,
    /// Whether it is an item.
    pub(crate) item: bool,
    /// Whether counting starts again there.
    pub(crate) fresh: bool,
}

/// The counters behind one more paragraph. A count that would pass 4294967295 is refused as want of memory is.
pub(crate) fn counters_behind(counters: &Counters, step: Step) -> Result<Counters, AllocError>
    requires least { 1 ≤ step.level }
    requires most { step.level ≤ 10 }
    ensures { IfOk result (λ next. (level : ℕ) → count_in next level ≡ count_behind level (place_of step) (count_in counters.now level)) }
{
    let mut next = [0; 10];
    'levels: for index in 0..10 {
        next[index] = count_behind(counters[index], (index + 1) as u8, step)?;
    }
    Ok(next)
}

/// How many items of a level count behind one more paragraph.
fn count_behind(count: u32, level: u8, step: Step) -> Result<u32, AllocError>
    ensures { IfOk result (λ next. next ≡ count_behind level (place_of step) count) }
{
    let kept = if clears(level, step) { 0 } else { count };
    if !is_item_of(level, step) {
        return Ok(kept);
    }
    match kept.checked_add(1) {
        Some(next) => Ok(next),
        None => Err(AllocError),
    }
}

/// Whether a paragraph clears the counter of a level.
fn clears(level: u8, step: Step) -> bool
    ensures { result ≡ clears level (place_of step) }
{
    if step.fresh {
        return true;
    }
    step.item && step.level < level
}

fn is_item_of(level: u8, step: Step) -> bool
    ensures { result ≡ is_item_of level (place_of step) }
{
    step.item && step.level == level
}
