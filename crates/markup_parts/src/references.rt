//! References to characters and to the predefined entities.

ghost use Rattle.std.specs.Prelude.{◌≡◌, ◌≤◌, ◌<◌, ◌⊎◌, chars, length, IfOk};
ghost use Rattle.markup_parts.specs.Chars.{entity_of, legal_character};
ghost use Rattle.markup_parts.specs.Constructs.{IsReference, IsNumeric, IsNumber, IsEntity};
ghost use Rattle.markup_parts.specs.Outcomes.{Reads, outcome};

use crate::chars::is_legal;
use crate::names::name;
use crate::stop::Stop;
use crate::text::{first, is_word};

/// The least number that is no character, and its kin above.
const TOO_LARGE: u32 = 0x11_0000;

/// The reference behind its `&`.
pub fn reference(text: &str) -> Result<(char, &str), Stop>
    ensures read { Reads IsReference (chars text.now) (outcome (λ found. found.0) (λ found. chars found.1.now) result) }
    ensures shorter { IfOk result (λ found. length found.1.now < length text.now) }
{
    let Some((c, rest)) = first(text) else {
        return Err(Stop::Cut);
    };
    if c == '#' {
        numeric_reference(rest)
    } else {
        entity_reference(text)
    }
}

/// The reference by a number, behind its `#`.
fn numeric_reference(text: &str) -> Result<(char, &str), Stop>
    ensures read { Reads IsNumeric (chars text.now) (outcome (λ found. found.0) (λ found. chars found.1.now) result) }
    ensures shorter { IfOk result (λ found. length found.1.now < length text.now) }
{
    let Some((c, digits)) = first(text) else {
        return Err(Stop::Cut);
    };
    if c == 'x' {
        number(digits, 16)
    } else {
        number(text, 10)
    }
}

/// The reference by a name.
fn entity_reference(text: &str) -> Result<(char, &str), Stop>
    ensures read { Reads IsEntity (chars text.now) (outcome (λ found. found.0) (λ found. chars found.1.now) result) }
    ensures shorter { IfOk result (λ found. length found.1.now < length text.now) }
{
    let (name, rest) = match name(text) {
        Err(stop) => return Err(stop),
        Ok(found) => found,
    };
    let Some((c, rest)) = first(rest) else {
        return Err(Stop::Broken);
    };
    if c != ';' {
        return Err(Stop::Broken);
    }
    match entity(name) {
        None => Err(Stop::Refused),
        Some(c) => Ok((c, rest)),
    }
}

/// The character of a predefined entity.
fn entity(name: &str) -> Option<char>
    ensures { result ≡ entity_of (chars name.now) }
{
    if is_word(name, "lt") {
        Some('<')
    } else if is_word(name, "gt") {
        Some('>')
    } else if is_word(name, "amp") {
        Some('&')
    } else if is_word(name, "apos") {
        Some('\'')
    } else if is_word(name, "quot") {
        Some('"')
    } else {
        None
    }
}

/// The reference by a number, behind the marks of its base. Digits may be many: a number that is too large stays so.
fn number(text: &str, base: u32) -> Result<(char, &str), Stop>
    requires { (base ≡ 10) ⊎ (base ≡ 16) }
    ensures read { Reads (IsNumber base) (chars text.now) (outcome (λ found. found.0) (λ found. chars found.1.now) result) }
    ensures shorter { IfOk result (λ found. length found.1.now < length text.now) }
{
    let mut value = 0;
    let mut rest = text;
    'digits: loop {
        let Some((c, behind)) = first(rest) else {
            return Err(Stop::Cut);
        };
        match c.to_digit(base) {
            Some(digit) => value = (value * base + digit).min(TOO_LARGE),
            None if c == ';' && rest.len() < text.len() => {
                return match legal(value) {
                    None => Err(Stop::Refused),
                    Some(c) => Ok((c, behind)),
                };
            }
            None => return Err(Stop::Broken),
        }
        rest = behind;
    }
}

/// The character of a number, if it is a legal one.
#[tactic(auto, unfolding(crate::specs::Chars::is_legal))]
fn legal(value: u32) -> Option<char>
    ensures { result ≡ legal_character value }
{
    match char::from_u32(value) {
        Some(c) if is_legal(c) => Some(c),
        _ => None,
    }
}
