//! The keys of the items of a list, which rise from one item to the next.
ghost use Rattle.std.specs.Prelude.{◌≡◌, ◌<◌, ◌≤◌, ◌-◌, ◌^◌, ◌++◌, ℕ, length, slice_index, map, IfOk, OnOk, All};
ghost use Rattle.std.specs.List.{between};
ghost use Rattle.tagged_list.specs.Entries.{keys_of, tagged_of};
ghost use Rattle.tagged_list.specs.Keeps.{Rises};

use crate::entry::{Entry, Tagged};
use share_vec::ShareVec;
use std::alloc::{AllocError, Global};

/// The key of the item at a place.
pub fn key_at<T>(items: &ShareVec<Entry<T>>, at: usize) -> u64
    requires { at < length items.now }
    ensures { result ≡ slice_index (keys_of items.now) at }
{
    items.get(at).key
}

// The key of the item before a place, or one below all keys.
fn key_before<T>(items: &ShareVec<Entry<T>>, at: usize) -> u64
    requires { at ≤ length items.now }
    ensures { 0 < at → result ≡ slice_index (keys_of items.now) (at - 1) }
{
    if at == 0 {
        return 0;
    }
    key_at(items, at - 1)
}

// The key of the item at a place, or one above all keys.
fn key_from<T>(items: &ShareVec<Entry<T>>, at: usize) -> u64
    requires { at ≤ length items.now }
    ensures { at < length items.now → result ≡ slice_index (keys_of items.now) at }
{
    if at == items.len() {
        return u64::MAX;
    }
    key_at(items, at)
}

/// The first place whose key is this one or a higher one.
pub fn place_of_key<T>(items: &ShareVec<Entry<T>>, key: u64) -> usize
    requires { Rises (keys_of items.now) }
    ensures within { result ≤ length items.now }
    ensures below { (k : ℕ) → k < result → slice_index (keys_of items.now) k < key }
    ensures above { (k : ℕ) → result ≤ k → k < length items.now → key ≤ slice_index (keys_of items.now) k }
{
    let mut low = 0;
    let mut high = items.len();
    'halves: while low < high {
        let middle = low + (high - low) / 2;
        if key_at(items, middle) < key {
            low = middle + 1;
        } else {
            high = middle;
        }
    }
    low
}

// Whether so many keys and one more between those round the range leave room for as many between each two.
fn is_roomy<T>(
    items: &ShareVec<Entry<T>>,
    low: usize,
    high: usize,
    count: usize,
    reach: usize,
) -> bool
    requires in_order { low ≤ high }
    requires in_range { high ≤ length items.now }
{
    let room = key_from(items, high).saturating_sub(key_before(items, low));
    room / (count as u64).saturating_add(1).max(1) > reach as u64
}

/// The range with items around it that get new keys, where `count` items come in the place of those from `from` up to
/// `to`: none of them where there is room between the keys beside the range, and otherwise twice as many each time, until
/// the keys of as many items have room.
pub fn window<T>(items: &ShareVec<Entry<T>>, from: usize, to: usize, count: usize) -> (usize, usize)
    requires in_order { from ≤ to }
    requires in_range { to ≤ length items.now }
    ensures before { result.0 ≤ from }
    ensures behind { to ≤ result.1 }
    ensures within { result.1 ≤ length items.now }
{
    let len = items.len();
    for doublings in 0..63u32 {
        let reach = (1usize << doublings) - 1;
        let low = from.saturating_sub(reach);
        let high = to.saturating_add(reach).min(len);
        let moved = count.saturating_add(from - low).saturating_add(high - to);
        if is_roomy(items, low, high, moved, reach) {
            return (low, high);
        }
    }
    (0, len)
}

/// The items with new keys, which lie between those round the range. Where the range comes from `window`, there are
/// enough of them.
pub fn keyed<T: Drop>(
    alloc: Global,
    items: &ShareVec<Entry<T>>,
    low: usize,
    high: usize,
    tagged: &[Tagged<T>],
) -> Result<Vec<Entry<T>>, AllocError>
    requires in_order { low ≤ high }
    requires in_range { high ≤ length items.now }
    ensures tagged { IfOk result (λ entries. tagged_of entries.items ≡ tagged.now) }
    ensures rising { IfOk result (λ entries. Rises (keys_of entries.items)) }
    ensures bounded { IfOk result (λ entries. All (λ key. key < 2 ^ 64) (keys_of entries.items)) }
    ensures above { IfOk result (λ entries. 0 < low → All (λ key. slice_index (keys_of items.now) (low - 1) < key) (keys_of entries.items)) }
    ensures below { IfOk result (λ entries. high < length items.now → All (λ key. key < slice_index (keys_of items.now) high) (keys_of entries.items)) }
{
    let first = key_before(items, low);
    let last = key_from(items, high);
    let step = last.saturating_sub(first) / (tagged.len() as u64).saturating_add(1).max(1);
    spaced(alloc, tagged, first, last, step)
}

// The items with keys that rise by a step, between two others.
fn spaced<T: Drop>(
    alloc: Global,
    tagged: &[Tagged<T>],
    first: u64,
    last: u64,
    step: u64,
) -> Result<Vec<Entry<T>>, AllocError>
    ensures tagged { IfOk result (λ entries. tagged_of entries.items ≡ tagged.now) }
    ensures rising { IfOk result (λ entries. Rises (keys_of entries.items)) }
    ensures bounded { IfOk result (λ entries. All (λ key. key < 2 ^ 64) (keys_of entries.items)) }
    ensures above { IfOk result (λ entries. All (λ key. first < key) (keys_of entries.items)) }
    ensures below { IfOk result (λ entries. All (λ key. key < last) (keys_of entries.items)) }
{
    let mut entries = Vec::with_capacity(alloc, tagged.len())?;
    let mut key = first;
    for item in tagged {
        let Some(next) = key.checked_add(step) else {
            return Err(AllocError);
        };
        if next <= key {
            return Err(AllocError);
        }
        if last <= next {
            return Err(AllocError);
        }
        key = next;
        entries.push(Entry {
            key,
            tagged: item.clone()?,
        })?;
    }
    Ok(entries)
}

// Adds the items of a range at the end.
fn add_range<T: Drop>(
    all: &mut Vec<Tagged<T>>,
    items: &ShareVec<Entry<T>>,
    from: usize,
    to: usize,
) -> Result<(), AllocError>
    requires in_order { from ≤ to }
    requires in_range { to ≤ length items.now }
    ensures { OnOk result (all.new.items ≡ all.old.items ++ between from to (tagged_of items.now)) }
{
    for at in from..to {
        all.push(items.get(at).tagged.clone()?)?;
    }
    Ok(())
}

// Adds clones of items at the end.
fn add_items<T: Drop>(all: &mut Vec<Tagged<T>>, tagged: &[Tagged<T>]) -> Result<(), AllocError>
    ensures { OnOk result (all.new.items ≡ all.old.items ++ tagged.now) }
{
    all.extend_from_slice(tagged)
}

/// The items of a wider range, from `low` up to `high`, once others stand in the place of those from `from` up to `to`.
pub fn gathered<T: Drop>(
    alloc: Global,
    items: &ShareVec<Entry<T>>,
    wide: (usize, usize),
    range: (usize, usize),
    tagged: &[Tagged<T>],
) -> Result<Vec<Tagged<T>>, AllocError>
    requires before { wide.0 ≤ range.0 }
    requires in_order { range.0 ≤ range.1 }
    requires behind { range.1 ≤ wide.1 }
    requires in_range { wide.1 ≤ length items.now }
    ensures { IfOk result (λ all. all.items ≡ between wide.0 range.0 (tagged_of items.now) ++ (tagged.now ++ between range.1 wide.1 (tagged_of items.now))) }
{
    let mut all = Vec::new(alloc);
    add_range(&mut all, items, wide.0, range.0)?;
    add_items(&mut all, tagged)?;
    add_range(&mut all, items, range.1, wide.1)?;
    Ok(all)
}
