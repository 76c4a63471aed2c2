//! Texts and their beginnings.

ghost use Rattle.std.specs.Prelude.{◌≡◌, ◌≢◌, [], ◌∷◌, ◌++◌, ◌+◌, ◌<◌, ◌≤◌, ℕ, List, length, chars, MatchOption, IfSome, IfOk, IsTrue, ◌↔◌, true};
ghost use Rattle.std.specs.List.{AllByRecursion as Each};
ghost use Rattle.std.specs.Str.{bytes_eq};
ghost use Rattle.markup_parts.specs.Constructs.{IsText};
ghost use Rattle.markup_parts.specs.Outcomes.{Reads, outcome};
ghost use Rattle.markup_parts.specs.Runs.{passes, NotBegins};

use crate::chars::{is_name_char, is_plain_char, is_space, is_text_char, is_value_char};
use crate::stop::Stop;

/// The first character and the text behind it.
pub fn first(text: &str) -> Option<(char, &str)>
    ensures first { MatchOption result (chars text.now ≡ []) (λ found. chars text.now ≡ found.0 ∷ chars found.1.now) }
    ensures shorter { IfSome result (λ found. length found.1.now < length text.now) }
{
    let mut characters = text.chars();
    let first = characters.next()?;
    Some((first, characters.as_str()))
}

/// Whether a text has no character.
pub fn is_nothing(text: &str) -> bool
    ensures { IsTrue result ↔ (chars text.now ≡ []) }
{
    first(text).is_none()
}

/// Whether a text is this word.
pub fn is_word(text: &str, word: &str) -> bool
    ensures { result ≡ bytes_eq (chars text.now) (chars word.now) }
{
    text == word
}

/// The text behind characters that have to stand here.
pub fn expect<'a>(text: &'a str, wanted: &str) -> Result<&'a str, Stop>
    ensures read { Reads (IsText (chars wanted.now)) (chars text.now) (outcome (λ _. tt) (λ rest. chars rest.now) result) }
    ensures shorter { IfOk result (λ rest. (length rest.now ≤ length text.now) × (chars wanted.now ≢ [] → length rest.now < length text.now)) }
{
    let mut rest = text;
    let mut left = wanted;
    'wanted: while let Some((c, more)) = first(left) {
        match first(rest) {
            None => return Err(Stop::Cut),
            Some((d, behind)) if d == c => rest = behind,
            Some(_) => return Err(Stop::Broken),
        }
        left = more;
    }
    Ok(rest)
}

/// The text in front of an end of it.
pub fn before<'a>(text: &'a str, rest: &str) -> &'a str
    requires { (front : List ℕ) × (chars text.now ≡ front ++ chars rest.now) }
    ensures { chars text.now ≡ chars result.now ++ chars rest.now }
{
    &text[..text.len() - rest.len()]
}

/// What a run of characters is made of.
#[derive(Debug, Clone, Copy, PartialEq, Eq)]
pub enum Class {
    /// Characters of names.
    Name,
    /// White space.
    Space,
    /// Characters that stand for themselves in character data.
    Text,
    /// Characters that stand for themselves in an attribute value.
    Value,
    /// Characters that no escape changes, neither of text nor of values.
    Plain,
}

impl Class {
    pub fn has(self, c: char) -> bool
        ensures { result ≡ passes self c }
    {
        match self {
            Class::Name => is_name_char(c),
            Class::Space => is_space(c),
            Class::Text => is_text_char(c),
            Class::Value => is_value_char(c),
            Class::Plain => is_plain_char(c),
        }
    }
}

/// The characters of a class at the front, and the text behind them.
pub fn run(text: &str, class: Class) -> (&str, &str)
    ensures text { chars text.now ≡ chars result.0.now ++ chars result.1.now }
    ensures all { Each (λ c. passes class c ≡ true) (chars result.0.now) }
    ensures ends { NotBegins (passes class) (chars result.1.now) }
    ensures strict { chars result.0.now ≢ [] → length result.1.now < length text.now }
    ensures shorter { length result.1.now ≤ length text.now }
{
    let mut rest = text;
    'run: while let Some((c, behind)) = first(rest) {
        if !class.has(c) {
            break;
        }
        rest = behind;
    }
    (before(text, rest), rest)
}
