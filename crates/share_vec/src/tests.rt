//! The list beside a `Vec`, shared lists, and want of memory.
ghost use Rattle.std.specs.Prelude.{◌≡◌, ◌<◌, length, IfOk, OnOk, OnErr, slice_set};

mod beside;
mod word;

use crate::ShareVec;
use beside::{calls_agree, first_numbers, reads, remove_both, replace_both};
use std::alloc::{AllocError, Global};
use std::test::Fail;
use std::thread::join;
use word::{Word, each_call_twice};

#[test]
fn a_shared_list_keeps_what_it_held(rt: HostRuntime) -> Result<(), Fail> {
    let numbers = first_numbers(rt.alloc(), 1, 1_001)?;
    let mut plain = first_numbers(rt.alloc(), 1, 1_001)?;
    let mut list = ShareVec::from_list(rt.alloc(), first_numbers(rt.alloc(), 1, 1_001)?)?;
    let copy = list.share()?;
    assert!(rt; zero_500_and_drop_0(&mut list, &mut plain)?);
    assert!(rt; reads(&copy, &numbers));
    assert_eq!(rt; list.len(), 999);
    assert_eq!(rt; *list.get(499), 0);
    assert!(rt; reads(&list, &plain));
    Ok(())
}

fn zero_500_and_drop_0(list: &mut ShareVec<u32>, plain: &mut Vec<u32>) -> Result<bool, AllocError> {
    if list.len() <= 500 || plain.len() <= 500 || !replace_both(list, plain, 500, 0)? {
        return Ok(false);
    }
    if list.len() == 0 || plain.len() == 0 {
        return Ok(false);
    }
    remove_both(list, plain, 0)
}

// What is done to a list leaves each list that was shared from it, whatever the items are.
fn replace_apart(
    list: &mut ShareVec<u32>,
    at: usize,
    item: u32,
) -> Result<ShareVec<u32>, AllocError>
    requires { at < length list.old }
    ensures copy { IfOk result (λ copy. copy ≡ list.old) }
    ensures list { OnOk result (list.new ≡ slice_set list.old at item) }
    ensures err { OnErr result (list.new ≡ list.old) }
{
    let copy = list.share()?;
    if let Err(_item) = list.replace(at, item) {
        return Err(AllocError);
    }
    Ok(copy)
}

#[test]
fn another_thread_reads_its_copy_while_the_list_changes(rt: HostRuntime) -> Result<(), Fail> {
    let numbers = first_numbers(rt.alloc(), 0, 20_000)?;
    let mut list = ShareVec::from_list(rt.alloc(), first_numbers(rt.alloc(), 0, 20_000)?)?;
    let copy = list.share()?;
    let (kept, emptied) = join(&rt, || reads(&copy, &numbers), || empty_out(&mut list));
    assert!(rt; kept);
    assert!(rt; emptied);
    assert!(rt; reads(&copy, &numbers));
    assert!(rt; 0 < list.len());
    let kept = replace_apart(&mut list, 0, 7)?;
    assert!(rt; kept.len() == list.len());
    Ok(())
}

// Takes items out from the middle until one is left.
fn empty_out(list: &mut ShareVec<u32>) -> bool {
    for _ in 0..40_000 {
        let len = list.len();
        if len <= 1 {
            return true;
        }
        if list.remove(len / 2).is_err() && list.len() != len {
            return false;
        }
    }
    false
}

// A seed, how many calls there are, and with how many items the list begins.
const ROWS: &[(u64, u32, u32)] = &[(1, 150, 0), (2, 200, 1_000), (3, 60, 5_000)];

fn all_rows(alloc: Global) -> Result<bool, AllocError> {
    for (seed, calls, start) in ROWS {
        if !calls_agree(alloc, *seed, *calls, *start)? {
            return Ok(false);
        }
    }
    Ok(true)
}

#[test]
fn calls_agree_with_those_of_a_vec(rt: HostRuntime) -> Result<(), Fail> {
    assert!(rt; all_rows(rt.alloc())?);
    Ok(())
}

#[test]
fn want_of_memory_leaves_the_list(rt: HostRuntime) -> Result<(), Fail> {
    assert!(rt; each_call_twice(rt.alloc())?);
    Ok(())
}
