//! Characters as they are spelled between quotes.

ghost use Rattle.std.specs.Prelude.{◌≡◌, ℕ, ◌++◌, List, codes, MatchOption, true, false};
ghost use Rattle.std.specs.Char.{is_ascii_hexdigit, digit_value};
ghost use Rattle.script_lang.specs.Parts.{Finds, IsHexNumber, IsHexValue, SpellsThen};

use crate::cuts::{after, cut_at};

/// The next character that bytes between quotes spell, where it is one of U+20 to U+7E, and what follows it.
pub(crate) fn next_char(bytes: &[u8]) -> Option<(u8, &[u8])>
    ensures { MatchOption result ((c : ℕ) (rest : List ℕ) → SpellsThen bytes.now c rest → ⊥)
        (λ found. SpellsThen bytes.now found.0 found.1.now) }
{
    let (first, rest) = bytes.split_first()?;
    match *first {
        b'\\' => escaped_char(rest),
        b'"' => None,
        b' '..=b'~' => Some((*first, rest)),
        _ => None,
    }
}

/// The character that a backslash before these bytes begins.
fn escaped_char(bytes: &[u8]) -> Option<(u8, &[u8])>
    ensures { MatchOption result ((c : ℕ) (rest : List ℕ) → SpellsThen (codes "\\" ++ bytes.now) c rest → ⊥)
        (λ found. SpellsThen (codes "\\" ++ bytes.now) found.0 found.1.now) }
{
    if let Some(rest) = after(bytes, b"u{") {
        return numbered_char(rest);
    }
    let (first, rest) = bytes.split_first()?;
    match *first {
        b'"' | b'\\' => Some((*first, rest)),
        _ => None,
    }
}

/// The character of the number that stands before the first closing brace, behind `\u{`.
fn numbered_char(bytes: &[u8]) -> Option<(u8, &[u8])>
    ensures { MatchOption result ((c : ℕ) (rest : List ℕ) → SpellsThen (codes "\\u{" ++ bytes.now) c rest → ⊥)
        (λ found. SpellsThen (codes "\\u{" ++ bytes.now) found.0 found.1.now) }
{
    let (digits, rest) = cut_at(bytes, b'}')?;
    match read_hex(digits)? {
        c @ b' '..=b'~' => Some((c, rest)),
        _ => None,
    }
}

/// The number that one to six hexadecimal digits spell, where it is below 2^8.
fn read_hex(digits: &[u8]) -> Option<u8>
    ensures { Finds (IsHexNumber digits.now) result }
{
    if digits.is_empty() {
        return None;
    }
    if digits.len() > 6 {
        return None;
    }
    hex_value(digits)
}

/// The number that hexadecimal digits spell, where it is below 2^8.
fn hex_value(digits: &[u8]) -> Option<u8>
    ensures { Finds (IsHexValue digits.now) result }
{
    let mut number: u8 = 0;
    for digit in digits {
        let value = hex_digit(*digit)?;
        number = number.checked_mul(16)?.checked_add(value)?;
    }
    Some(number)
}

fn hex_digit(digit: u8) -> Option<u8>
    ensures { MatchOption result (is_ascii_hexdigit digit ≡ false)
        (λ value. (is_ascii_hexdigit digit ≡ true) × (value ≡ digit_value digit)) }
{
    match digit {
        b'0'..=b'9' => Some(digit - b'0'),
        b'a'..=b'f' => Some(digit - b'a' + 10),
        b'A'..=b'F' => Some(digit - b'A' + 10),
        _ => None,
    }
}
