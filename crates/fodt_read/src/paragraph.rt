//! Reading the characters of a paragraph.
ghost use Rattle.std.specs.Prelude.{◌≡◌, ℕ, ◌+◌, ◌≤◌, ◌<◌, ◌↔◌, List, [], ◌∷◌, ◌++◌, length, take, drop, replicate, false, IsTrue, IfOk, OnOk, IfErr, MatchResult};
ghost use Rattle.std.specs.List.{AllByRecursion as Each};
ghost use Rattle.spelling_model.specs.Spelling.{paragraph_end};
ghost use Rattle.plain_doc.specs.PlainSpelling.{plain_content, plain_paragraph_bytes};
ghost use Rattle.fodt_read.specs.PlainText.{IsPlainText, IsUnmarked};

use crate::escape::{MOST_OF_PARAGRAPH, read_escape};
use crate::fault::LoadFault;
use crate::front::after;
use spelling_model::{EMPTY_PARAGRAPH, PARAGRAPH, PARAGRAPH_END};

// Reads a paragraph at the front of the bytes. Its characters are put in the place of the text, and the bytes
// after it are answered.
pub(crate) fn read_paragraph<'a>(bytes: &'a [u8], text: &mut Vec<u8>) -> Result<&'a [u8], LoadFault>
    ensures plain { OnOk result (IsPlainText text.new.items) }
    ensures shorter { IfOk result (λ rest. length rest.now < length bytes.now) }
    ensures read { (chars more : List ℕ) → IsPlainText chars → bytes.now ≡ plain_paragraph_bytes chars ++ more
        → MatchResult result (λ rest. (rest.now ≡ more) × (text.new.items ≡ chars)) (λ fault. fault ≡ LoadFault.NoMemory) }
{
    text.clear();
    if let Some(rest) = after(bytes, EMPTY_PARAGRAPH) {
        return Ok(rest);
    }
    match after(bytes, PARAGRAPH) {
        Some(rest) => read_content(rest, text),
        None => Err(LoadFault::NotPlain),
    }
}

// Reads the characters of a paragraph up to its end tag, and answers the bytes after that.
fn read_content<'a>(bytes: &'a [u8], text: &mut Vec<u8>) -> Result<&'a [u8], LoadFault>
    requires { text.old.items ≡ [] }
    ensures plain { OnOk result (IsPlainText text.new.items) }
    ensures shorter { IfOk result (λ rest. length rest.now < length bytes.now) }
    ensures read { (chars more : List ℕ) → IsPlainText chars → bytes.now ≡ plain_content 0 false chars ++ (paragraph_end ++ more)
        → MatchResult result (λ rest. (rest.now ≡ more) × (text.new.items ≡ chars)) (λ fault. fault ≡ LoadFault.NoMemory) }
{
    let mut rest = bytes;
    'pieces: loop {
        let (run, marked) = rest.split_at(plain_run(rest));
        push_run(text, run)?;
        if let Some(rest) = after(marked, PARAGRAPH_END) {
            return Ok(rest);
        }
        let Some(escape) = read_escape(marked) else {
            return Err(LoadFault::NotPlain);
        };
        push_times(text, escape.character, escape.count)?;
        rest = escape.rest;
    }
}

// How many bytes at the front are characters that need no mark-up.
fn plain_run(bytes: &[u8]) -> usize
    ensures within { result ≤ length bytes.now }
    ensures plain { Each IsUnmarked (take result bytes.now) }
    ensures stop { (c : ℕ) (more : List ℕ) → drop result bytes.now ≡ c ∷ more → IsUnmarked c → ⊥ }
{
    for (place, byte) in bytes.iter().enumerate() {
        if !is_unmarked(*byte) {
            return place;
        }
    }
    bytes.len()
}

// Whether a byte is a character that needs no mark-up.
fn is_unmarked(byte: u8) -> bool
    ensures { IsTrue result ↔ IsUnmarked byte }
{
    match byte {
        b'&' | b'<' => false,
        b' '..=b'~' => true,
        _ => false,
    }
}

// Adds characters to a text that has room for them.
fn push_run(text: &mut Vec<u8>, run: &[u8]) -> Result<(), LoadFault>
    requires { length text.old.items ≤ 32768 }
    ensures ok { OnOk result (text.new.items ≡ text.old.items ++ run.now) }
    ensures most { length text.new.items ≤ 32768 }
    ensures full { IfErr result (λ fault. fault ≡ LoadFault.NotPlain → 32768 < length text.old.items + length run.now) }
{
    if run.len() > MOST_OF_PARAGRAPH - text.len() {
        return Err(LoadFault::NotPlain);
    }
    text.extend_from_slice(run)?;
    Ok(())
}

// Adds a character so many times to a text that has room for it.
fn push_times(text: &mut Vec<u8>, character: u8, count: usize) -> Result<(), LoadFault>
    requires { length text.old.items ≤ 32768 }
    ensures ok { OnOk result (text.new.items ≡ text.old.items ++ replicate count character) }
    ensures most { length text.new.items ≤ 32768 }
    ensures full { IfErr result (λ fault. fault ≡ LoadFault.NotPlain → 32768 < length text.old.items + count) }
{
    if count > MOST_OF_PARAGRAPH - text.len() {
        return Err(LoadFault::NotPlain);
    }
    text.resize(text.len() + count, character)?;
    Ok(())
}
