//! An item whose clone takes memory.
ghost use Rattle.std.specs.Prelude.{◌≡◌, ◌<◌, ◌≤◌, length};

use crate::ShareVec;
use std::alloc::{AllocError, Global};
use std::marker::Model;

#[derive(Drop)]
pub struct Word {
    text: String,
}

impl Model for Word {
    ghost use Rattle.std.specs.Prelude.{List, ℕ, string_bytes};

    ghost Value = { List ℕ };

    ghost view = { λ word. string_bytes word.text };
}

impl Word {
    fn new(alloc: Global, text: &str) -> Result<Word, AllocError> {
        Ok(Word {
            text: String::from_str(alloc, text)?,
        })
    }
}

impl Clone for Word {
    ghost is_clone = { λ word copy. copy ≡ word };

    fn clone(&self) -> Result<Word, AllocError> {
        let text = String::from_str(*self.text.allocator(), self.text.as_str())?;
        Ok(Word { text })
    }
}

// Whether these are the words of the list. It takes no memory.
fn reads(list: &ShareVec<Word>, words: &[&str]) -> bool {
    let mut left = words.iter();
    for word in list.iter() {
        match left.next() {
            None => return false,
            Some(expected) => {
                if word.text.as_str() != *expected {
                    return false;
                }
            }
        }
    }
    left.next().is_none() && list.len() == words.len()
}

// Each call is made once more where there was no memory, which has left the list as it was.
fn insert_again(list: &mut ShareVec<Word>, at: usize, word: Word, before: &[&str]) -> bool
    requires { at ≤ length list.old }
{
    let Err(back) = list.insert(at, word) else {
        return true;
    };
    if !reads(list, before) || at > list.len() {
        return false;
    }
    list.insert(at, back).is_ok()
}

fn replace_again(list: &mut ShareVec<Word>, at: usize, word: Word, before: &[&str]) -> bool
    requires { at < length list.old }
{
    let Err(back) = list.replace(at, word) else {
        return true;
    };
    if !reads(list, before) || at >= list.len() {
        return false;
    }
    list.replace(at, back).is_ok()
}

fn remove_again(list: &mut ShareVec<Word>, at: usize, before: &[&str]) -> bool
    requires { at < length list.old }
{
    if list.remove(at).is_ok() {
        return true;
    }
    if !reads(list, before) || at >= list.len() {
        return false;
    }
    list.remove(at).is_ok()
}

fn splice_again(
    list: &mut ShareVec<Word>,
    from: usize,
    to: usize,
    words: &ShareVec<Word>,
    before: &[&str],
) -> bool
    requires in_order { from ≤ to }
    requires in_range { to ≤ length list.old }
{
    if list.splice(from, to, words).is_ok() {
        return true;
    }
    if !reads(list, before) || to > list.len() {
        return false;
    }
    list.splice(from, to, words).is_ok()
}

/// Whether each call, with memory or made once more, leaves its words, and the lists that were shared keep theirs.
pub fn each_call_twice(alloc: Global) -> Result<bool, AllocError> {
    let mut list = ShareVec::new(alloc);
    if !insert_again(&mut list, 0, Word::new(alloc, "b")?, &[]) || list.len() != 1 {
        return Ok(false);
    }
    if !insert_again(&mut list, 0, Word::new(alloc, "a")?, &["b"]) {
        return Ok(false);
    }
    let first = list.share()?;
    if list.len() != 2 || !replace_again(&mut list, 1, Word::new(alloc, "c")?, &["a", "b"]) {
        return Ok(false);
    }
    let second = list.share()?;
    if list.len() != 2 || !splice_again(&mut list, 1, 1, &first, &["a", "c"]) {
        return Ok(false);
    }
    if !reads(&list, &["a", "a", "b", "c"]) || list.len() != 4 {
        return Ok(false);
    }
    let third = list.share()?;
    if !remove_again(&mut list, 0, &["a", "a", "b", "c"]) {
        return Ok(false);
    }
    Ok(
        reads(&first, &["a", "b"])
            && reads(&second, &["a", "c"])
            && reads(&third, &["a", "a", "b", "c"])
            && reads(&list, &["a", "b", "c"]),
    )
}
