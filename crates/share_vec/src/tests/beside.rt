//! A list and a `Vec` to which the same is done.
ghost use Rattle.std.specs.Prelude.{◌<◌, ◌≤◌, length, vec_len};

use crate::ShareVec;
use std::alloc::{AllocError, Global};

/// The numbers from one up to another.
pub fn first_numbers(alloc: Global, from: u32, to: u32) -> Result<Vec<u32>, AllocError> {
    let mut numbers = Vec::new(alloc);
    for number in from..to {
        numbers.push(number)?;
    }
    Ok(numbers)
}

/// Whether these are the items of the list, by its iterator and by their places. It takes no memory.
pub fn reads(list: &ShareVec<u32>, items: &[u32]) -> bool {
    if list.len() != items.len() {
        return false;
    }
    let mut at = 0;
    for item in list.iter() {
        if items.get(at) != Some(item) {
            return false;
        }
        if at >= list.len() || list.get(at) != item {
            return false;
        }
        at += 1;
    }
    at == items.len()
}

// The next of a fixed row of numbers, below `bound`.
fn below(seed: &mut u64, bound: u64) -> usize
    requires { 0 < bound }
    ensures { result < bound }
{
    *seed = seed
        .wrapping_mul(6_364_136_223_846_793_005)
        .wrapping_add(1_442_695_040_888_963_407);
    ((*seed >> 33) % bound) as usize
}

/// Whether so many calls at random answer and leave the same as on a `Vec`, and a shared list keeps what it held.
pub fn calls_agree(alloc: Global, seed: u64, calls: u32, start: u32) -> Result<bool, AllocError> {
    let mut seed = seed;
    let mut plain = first_numbers(alloc, 0, start)?;
    let mut list = ShareVec::from_list(alloc, first_numbers(alloc, 0, start)?)?;
    let mut shared = list.share()?;
    let mut held = Vec::from_slice(alloc, &plain)?;
    for call in 0..calls {
        if call % 20 == 0 {
            if !reads(&shared, &held) {
                return Ok(false);
            }
            shared = list.share()?;
            held = Vec::from_slice(alloc, &plain)?;
        }
        if !one_call(&mut list, &mut plain, &mut seed)? || !reads(&list, &plain) {
            return Ok(false);
        }
    }
    Ok(reads(&shared, &held))
}

fn one_call(
    list: &mut ShareVec<u32>,
    plain: &mut Vec<u32>,
    seed: &mut u64,
) -> Result<bool, AllocError> {
    let len = plain.len();
    if list.len() != len {
        return Ok(false);
    }
    let item = below(seed, 300) as u32;
    let kind = below(seed, 8);
    let at = below(seed, (len as u64).saturating_add(1));
    if kind == 0 {
        let to = at.saturating_add(below(seed, 300)).min(len);
        return splice_both(list, plain, at, to, item);
    }
    if kind < 4 || at == len {
        return insert_both(list, plain, at, item);
    }
    if kind < 6 {
        return replace_both(list, plain, at, item);
    }
    remove_both(list, plain, at)
}

fn insert_both(
    list: &mut ShareVec<u32>,
    plain: &mut Vec<u32>,
    at: usize,
    item: u32,
) -> Result<bool, AllocError>
    requires list { at ≤ length list.old }
    requires plain { at ≤ vec_len plain.old }
{
    if let Err(back) = list.insert(at, item) {
        if back != item || !reads(list, plain) || at > list.len() {
            return Ok(false);
        }
        if list.insert(at, back) != Ok(()) {
            return Ok(false);
        }
    }
    plain.insert(at, item)?;
    Ok(true)
}

/// Whether a call answers the same on both. Where there was no memory, the list was as before, and it is made once more.
pub fn replace_both(
    list: &mut ShareVec<u32>,
    plain: &mut Vec<u32>,
    at: usize,
    item: u32,
) -> Result<bool, AllocError>
    requires list { at < length list.old }
    requires plain { at < vec_len plain.old }
{
    let was = match list.replace(at, item) {
        Ok(was) => was,
        Err(back) => {
            if back != item || !reads(list, plain) || at >= list.len() {
                return Ok(false);
            }
            let Ok(was) = list.replace(at, item) else {
                return Ok(false);
            };
            was
        }
    };
    let same = was == plain[at];
    plain[at] = item;
    Ok(same)
}

/// The same of another call.
pub fn remove_both(
    list: &mut ShareVec<u32>,
    plain: &mut Vec<u32>,
    at: usize,
) -> Result<bool, AllocError>
    requires list { at < length list.old }
    requires plain { at < vec_len plain.old }
{
    let was = match list.remove(at) {
        Ok(was) => was,
        Err(AllocError) => {
            if !reads(list, plain) || at >= list.len() {
                return Ok(false);
            }
            list.remove(at)?
        }
    };
    Ok(was == plain.remove(at))
}

// As many items come in as the number says, each the same.
fn splice_both(
    list: &mut ShareVec<u32>,
    plain: &mut Vec<u32>,
    from: usize,
    to: usize,
    item: u32,
) -> Result<bool, AllocError>
    requires in_order { from ≤ to }
    requires list { to ≤ length list.old }
    requires plain { to ≤ vec_len plain.old }
{
    let alloc = *plain.allocator();
    let mut items = Vec::new(alloc);
    items.resize(item as usize, item)?;
    let added = ShareVec::from_list(alloc, Vec::from_slice(alloc, &items)?)?;
    let removed = match list.splice(from, to, &added) {
        Ok(removed) => removed,
        Err(AllocError) => {
            if !reads(list, plain) || to > list.len() {
                return Ok(false);
            }
            list.splice(from, to, &added)?
        }
    };
    let same = reads(&removed, &plain[from..to]) && reads(&added, &items);
    let mut spliced = Vec::from_slice(alloc, &plain[..from])?;
    spliced.extend_from_slice(&items)?;
    spliced.extend_from_slice(&plain[to..])?;
    *plain = spliced;
    Ok(same)
}
