//! An item whose clone takes memory and is counted.
ghost use Rattle.std.specs.Prelude.{◌≡◌, IfOk};

use crate::RunText;
use std::alloc::{AllocError, Global};
use std::cell::Cell;
use std::default::MadeWith;
use std::marker::Model;

#[derive(Drop)]
pub struct Word<'a> {
    text: String,
    // How many clones were made of it and of the words that share this count.
    clones: Option<&'a Cell<u32>>,
}

impl<'a> Model for Word<'a> {
    ghost use Rattle.std.specs.Prelude.{List, ℕ, string_bytes};

    ghost Value = { List ℕ };

    ghost view = { λ word. string_bytes word.text };
}

impl<'a> Word<'a> {
    pub fn new(alloc: Global, text: &str, clones: &'a Cell<u32>) -> Result<Word<'a>, AllocError> {
        Ok(Word {
            text: String::from_str(alloc, text)?,
            clones: Some(clones),
        })
    }
}

impl<'a> Clone for Word<'a> {
    ghost is_clone = { λ word copy. copy ≡ word };

    fn clone(&self) -> Result<Word<'a>, AllocError> {
        let text = String::from_str(*self.text.allocator(), self.text.as_str())?;
        if let Some(clones) = self.clones {
            clones.set(clones.get().wrapping_add(1));
        }
        Ok(Word {
            text,
            clones: self.clones,
        })
    }
}

impl<'a> MadeWith<Global> for Word<'a> {
    fn made_with(alloc: Global) -> Word<'a> {
        Word {
            text: String::new(alloc),
            clones: None,
        }
    }
}

// Whether these are the words of the list. It takes no memory.
pub fn reads(text: &RunText<Word<'_>>, words: &[&str]) -> bool {
    if text.len() != words.len() {
        return false;
    }
    let (front, back) = text.slice(0, text.len());
    for (word, expected) in front.iter().chain(back).zip(words) {
        if word.text.as_str() != *expected {
            return false;
        }
    }
    true
}
