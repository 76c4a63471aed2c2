//! The words of a run.

use std::alloc::{AllocError, Global};

/// The words of a text. Blanks stand between them; a word that has blanks, or nothing, stands between two `'`.
pub(crate) fn words_of(alloc: Global, text: &str) -> Result<Vec<String>, AllocError> {
    let mut words = Vec::new(alloc);
    for (place, piece) in text.split('\'').enumerate() {
        if place % 2 == 1 {
            words.push(String::from_str(alloc, piece)?)?;
        } else {
            push_words(&mut words, piece)?;
        }
    }
    Ok(words)
}

// Appends the words of a text, with blanks between them.
fn push_words(words: &mut Vec<String>, text: &str) -> Result<(), AllocError> {
    let alloc = *words.allocator();
    for word in text.split_whitespace() {
        words.push(String::from_str(alloc, word)?)?;
    }
    Ok(())
}
