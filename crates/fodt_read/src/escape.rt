//! What stands in a paragraph for characters that can't stand for themselves.
ghost use Rattle.std.specs.Prelude.{◌≡◌, ◌≢◌, ℕ, ◌+◌, ◌≤◌, ◌<◌, List, ◌∷◌, ◌++◌, length, decimal, IfSome, IsSomeAnd, MatchOption};
ghost use Rattle.doc_model.specs.Chars.{IsPlainChar};
ghost use Rattle.spelling_model.specs.Spelling.{escaped, spaces};
ghost use Rattle.fodt_read.specs.PlainText.{IsEntity};

use crate::front::after;
use spelling_model::{SPACE, SPACES, SPACES_END};

/// How many characters a paragraph may have.
pub(crate) const MOST_OF_PARAGRAPH: usize = 32768;

/// One character so many times, and the bytes after what stands for it.
#[derive(Clone, Copy)]
pub(crate) struct Escape<'a> {
    pub(crate) character: u8,
    pub(crate) count: usize,
    pub(crate) rest: &'a [u8],
}

// Reads an entity, or the element for spaces, at the front of the bytes.
pub(crate) fn read_escape(bytes: &[u8]) -> Option<Escape<'_>>
    ensures plain { IfSome result (λ found. IsPlainChar found.character) }
    ensures shorter { IfSome result (λ found. length found.rest.now < length bytes.now) }
    ensures entity { (c : ℕ) (more : List ℕ) → IsEntity c → bytes.now ≡ escaped c ++ more
        → IsSomeAnd result (λ found. (found.character ≡ c) × (found.count ≡ 1) × (found.rest.now ≡ more)) }
    ensures spaces { (count : ℕ) (more : List ℕ) → 1 ≤ count → count ≤ 32768 → bytes.now ≡ spaces count ++ more
        → IsSomeAnd result (λ found. (found.character ≡ 0x20) × (found.count ≡ count) × (found.rest.now ≡ more)) }
{
    if bytes.starts_with(b"&") {
        read_entity(bytes)
    } else {
        read_spaces(bytes)
    }
}

// Reads the entity for one of the three characters that have one.
fn read_entity(bytes: &[u8]) -> Option<Escape<'_>>
    ensures plain { IfSome result (λ found. IsPlainChar found.character) }
    ensures shorter { IfSome result (λ found. length found.rest.now < length bytes.now) }
    ensures read { (c : ℕ) (more : List ℕ) → IsEntity c → bytes.now ≡ escaped c ++ more
        → IsSomeAnd result (λ found. (found.character ≡ c) × (found.count ≡ 1) × (found.rest.now ≡ more)) }
{
    if let Some(rest) = after(bytes, "&amp;") {
        return Some(one(b'&', rest));
    }
    if let Some(rest) = after(bytes, "&lt;") {
        return Some(one(b'<', rest));
    }
    let rest = after(bytes, "&gt;")?;
    Some(one(b'>', rest))
}

// Reads the element for one space or for several.
fn read_spaces(bytes: &[u8]) -> Option<Escape<'_>>
    ensures plain { IfSome result (λ found. IsPlainChar found.character) }
    ensures shorter { IfSome result (λ found. length found.rest.now < length bytes.now) }
    ensures read { (count : ℕ) (more : List ℕ) → 1 ≤ count → count ≤ 32768 → bytes.now ≡ spaces count ++ more
        → IsSomeAnd result (λ found. (found.character ≡ 0x20) × (found.count ≡ count) × (found.rest.now ≡ more)) }
{
    if let Some(rest) = after(bytes, SPACE) {
        return Some(one(b' ', rest));
    }
    let rest = after(bytes, SPACES)?;
    let (count, rest) = read_count(rest)?;
    let rest = after(rest, SPACES_END)?;
    Some(Escape {
        character: b' ',
        count,
        rest,
    })
}

// Reads the digits of a number, which may be none. A number that no paragraph has room for is none.
fn read_count(bytes: &[u8]) -> Option<(usize, &[u8])>
    ensures shorter { IfSome result (λ found. length found.1.now ≤ length bytes.now) }
    ensures read { (count : ℕ) (more : List ℕ) → count ≤ 32768 → bytes.now ≡ decimal count ++ 0x22 ∷ more
        → IsSomeAnd result (λ found. (found.0 ≡ count) × (found.1.now ≡ 0x22 ∷ more)) }
{
    let mut count = 0;
    let mut rest = bytes;
    'digits: while let Some((digit, more)) = first_digit(rest) {
        count = 10 * count + digit;
        if count > MOST_OF_PARAGRAPH {
            return None;
        }
        rest = more;
    }
    Some((count, rest))
}

// The digit at the front of the bytes, and the bytes after it.
fn first_digit(bytes: &[u8]) -> Option<(usize, &[u8])>
    ensures { MatchOption result ((digit : ℕ) (more : List ℕ) → digit < 10 → bytes.now ≢ (48 + digit) ∷ more)
        (λ found. (found.0 < 10) × (bytes.now ≡ (48 + found.0) ∷ found.1.now)) }
{
    match bytes {
        [byte @ b'0'..=b'9', rest @ ..] => Some((usize::from(*byte - b'0'), rest)),
        _ => None,
    }
}

// One character.
fn one(character: u8, rest: &[u8]) -> Escape<'_>
    ensures character { result.character ≡ character }
    ensures count { result.count ≡ 1 }
    ensures rest { result.rest.now ≡ rest.now }
{
    Escape {
        character,
        count: 1,
        rest,
    }
}
