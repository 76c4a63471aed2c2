//! The list beside the plain program, and want of memory.
ghost use Rattle.std.specs.Prelude.{◌<◌, ◌≤◌, length, vec_len};

mod word;

use crate::RunText;
use std::alloc::AllocError;
use std::cell::Cell;
use std::test::Fail;
use word::{Word, reads};

// How many items the long list has at first.
const MANY: u32 = 100_000;

// The plain program: a new `Vec` of what stands before, the new items and what stands behind.
fn splice_plainly(
    plain: &mut Vec<u32>,
    from: usize,
    to: usize,
    items: &[u32],
) -> Result<Vec<u32>, AllocError>
    requires in_order { from ≤ to }
    requires in_range { to ≤ vec_len plain.old }
{
    let alloc = *plain.allocator();
    let removed = plain[from..to].to_vec(alloc)?;
    let mut spliced = plain[..from].to_vec(alloc)?;
    spliced.extend_from_slice(items)?;
    spliced.extend_from_slice(&plain[to..])?;
    *plain = spliced;
    Ok(removed)
}

// The next of a fixed row of numbers, below `bound`.
fn below(seed: &mut u64, bound: u64) -> usize
    requires { 0 < bound }
    ensures { result < bound }
{
    *seed = seed
        .wrapping_mul(6_364_136_223_846_793_005)
        .wrapping_add(1_442_695_040_888_963_407);
    ((*seed >> 33) % bound) as usize
}

// Whether these are the items of the list. It takes no memory.
fn is_list(text: &RunText<u32>, items: &[u32]) -> bool {
    let (front, back) = text.slice(0, text.len());
    if text.len() != items.len() {
        return false;
    }
    items.starts_with(front) && items.ends_with(back)
}

// Whether both programs make the same of one more splice.
fn splices_alike(
    text: &mut RunText<u32>,
    plain: &mut Vec<u32>,
    seed: &mut u64,
) -> Result<bool, AllocError> {
    let len = text.len();
    if plain.len() != len {
        return Ok(false);
    }
    let from = below(seed, 100_400).min(len);
    let to = (from + below(seed, 9)).min(len);
    let items = [0, 1, 2, 3, 4, 5, 6, 7, 8];
    let added = &items[..below(seed, 10)];
    let removed = text.splice(from, to, added)?;
    let expected = splice_plainly(plain, from, to, added)?;
    Ok(removed == expected && is_list(text, plain))
}

#[test]
fn a_long_list_is_that_of_the_plain_program(rt: HostRuntime) -> Result<(), Fail> {
    let mut plain = Vec::new(rt.alloc());
    for item in 0..MANY {
        plain.push(item)?;
    }
    let mut text = RunText::new(rt.alloc());
    text.splice(0, 0, &plain)?;
    let copy = text.clone()?;
    let mut seed = 1;
    for round in 0..300u32 {
        assert!(rt;
            splices_alike(&mut text, &mut plain, &mut seed)?,
            "round {round}"
        );
    }
    assert!(rt; is_list(&text.clone()?, &plain));
    assert_eq!(rt; copy.len(), MANY as usize);
    let len = text.len();
    assert_eq!(rt; text.splice(0, len, &[])?, plain);
    assert_eq!(rt; text.len(), 0);
    Ok(())
}

// Splices, and once more where there was no memory, which has left the list as it was. It answers how many splices that
// took, or 0 where the list wasn't as it was.
fn splice_again<'a>(
    text: &mut RunText<Word<'a>>,
    to: usize,
    items: &[Word<'a>],
    before: &[&str],
) -> Result<u32, AllocError> {
    if to > text.len() {
        return Ok(0);
    }
    if text.splice(to / 2, to, items).is_ok() {
        return Ok(1);
    }
    if !reads(text, before) || to > text.len() {
        return Ok(0);
    }
    text.splice(to / 2, to, items)?;
    Ok(2)
}

#[test]
fn what_comes_in_is_cloned_once_and_want_of_memory_leaves_the_list(
    rt: HostRuntime,
) -> Result<(), Fail> {
    let count = Cell::new(0);
    let a = Word::new(rt.alloc(), "a", &count)?;
    let b = Word::new(rt.alloc(), "b", &count)?;
    let words = [a, b];
    let mut text = RunText::new(rt.alloc());
    let first = splice_again(&mut text, 0, &words, &[])?;
    let second = splice_again(&mut text, 1, &words, &["a", "b"])?;
    let third = splice_again(&mut text, 2, &words, &["a", "b", "b"])?;
    assert!(rt; reads(&text, &["a", "a", "b", "b"]));
    assert!(rt; first > 0 && second > 0 && third > 0);
    if first == 1 && second == 1 && third == 1 {
        assert!(rt; count.get() == 6);
    }
    Ok(())
}
