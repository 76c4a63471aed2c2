//! Attribute values.

ghost use Rattle.std.specs.Prelude.{if◌then◌else◌, ◌≡◌, ◌≤◌, ◌<◌, chars, length, IfOk, string_bytes};
ghost use Rattle.markup_parts.specs.Chars as named;
ghost use Rattle.markup_parts.specs.Outcomes.{Reads, outcome};
ghost use Rattle.markup_tags.specs.Attempts.{ReadsUnlessMemory, attempt};
ghost use Rattle.markup_tags.specs.Tags.{IsValue, IsQuote, IsNextOfValue};

use crate::fault::Fault;
use markup_parts::{Class, Stop, first, is_nothing, is_space, literal, reference, run};
use std::alloc::Global;

/// The value behind its first quote, and the text behind its last.
pub fn value(alloc: Global, text: &str, quote: char) -> Result<(String, &str), Fault>
    requires { IsQuote quote }
    ensures read { ReadsUnlessMemory (IsValue quote) (chars text.now) (attempt (λ found. chars (string_bytes found.0)) (λ found. chars found.1.now) result) }
    ensures shorter { IfOk result (λ found. length found.1.now < length text.now) }
{
    let mut value = String::new(alloc);
    let mut rest = text;
    'characters: loop {
        let (plain, front) = run(rest, Class::Value);
        if !is_nothing(plain) {
            value.push_str(plain)?;
            rest = front;
            continue;
        }
        match value_char(rest, quote) {
            Err(stop) => return Err(Fault::Stopped(stop)),
            Ok((None, behind)) => return Ok((value, behind)),
            Ok((Some(c), behind)) => {
                value.push(c)?;
                rest = behind;
            }
        }
    }
}

/// A character of a value, or none at its last quote.
fn value_char(text: &str, quote: char) -> Result<(Option<char>, &str), Stop>
    requires { IsQuote quote }
    ensures read { Reads (IsNextOfValue quote) (chars text.now) (outcome (λ found. found.0) (λ found. chars found.1.now) result) }
    ensures shorter { IfOk result (λ found. length found.1.now < length text.now) }
{
    let Some((c, behind)) = first(text) else {
        return Err(Stop::Cut);
    };
    if c == quote {
        return Ok((None, behind));
    }
    if c == '<' {
        return Err(Stop::Broken);
    }
    if c == '&' {
        return match reference(behind) {
            Err(stop) => Err(stop),
            Ok((c, behind)) => Ok((Some(c), behind)),
        };
    }
    match literal(text) {
        Err(stop) => Err(stop),
        Ok((c, behind)) => Ok((Some(spaced(c)), behind)),
    }
}

/// A character that stands in a value, where white space is a space.
fn spaced(c: char) -> char
    ensures { result ≡ (if named.is_space c then 0x20 else c) }
{
    if is_space(c) { ' ' } else { c }
}
