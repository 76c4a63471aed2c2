//! Constructs that end at a fixed text: comments and CDATA sections.

ghost use Rattle.std.specs.Prelude.{◌≡◌, ◌≤◌, ◌<◌, chars, length, IfOk, codes};
ghost use Rattle.markup_parts.specs.Chars.{is_legal};
ghost use Rattle.markup_parts.specs.Constructs.{IsUpTo, IsComment};
ghost use Rattle.markup_parts.specs.Outcomes.{Reads, outcome};
ghost use Rattle.markup_parts.specs.Runs.{is_allowed};

use crate::chars::is_legal;
use crate::stop::Stop;
use crate::text::{before, expect, first};

/// Which characters a construct may hold.
#[derive(Debug, Clone, Copy, PartialEq, Eq)]
pub enum Allowed {
    /// The legal ones.
    Legal,
    /// Any.
    Any,
}

impl Allowed {
    fn has(self, c: char) -> bool
        ensures { result ≡ is_allowed self c }
    {
        match self {
            Allowed::Legal => is_legal(c),
            Allowed::Any => true,
        }
    }
}

/// The text in front of the first place where an end stands, and the text behind that end.
pub fn up_to<'a>(text: &'a str, end: &str, allowed: Allowed) -> Result<(&'a str, &'a str), Stop>
    ensures read { Reads (IsUpTo (is_allowed allowed) (chars end.now)) (chars text.now) (outcome (λ found. chars found.0.now) (λ found. chars found.1.now) result) }
    ensures shorter { IfOk result (λ found. length found.1.now ≤ length text.now) }
{
    let mut rest = text;
    'body: loop {
        match expect(rest, end) {
            Ok(behind) => return Ok((before(text, rest), behind)),
            Err(Stop::Broken) => {}
            Err(Stop::Cut) => return Err(Stop::Cut),
            Err(Stop::Refused) => return Err(Stop::Refused),
        }
        match first(rest) {
            None => return Err(Stop::Cut),
            Some((c, _)) if !allowed.has(c) => return Err(Stop::Broken),
            Some((_, behind)) => rest = behind,
        }
    }
}

/// The text behind a comment, from behind its `<!--`.
pub fn comment(text: &str) -> Result<&str, Stop>
    ensures read { Reads IsComment (chars text.now) (outcome (λ _. tt) (λ rest. chars rest.now) result) }
    ensures shorter { IfOk result (λ rest. length rest.now ≤ length text.now) }
{
    match up_to(text, "--", Allowed::Legal) {
        Err(stop) => Err(stop),
        Ok((_, rest)) => expect(rest, ">"),
    }
}

/// The characters of a CDATA section from behind its `<![CDATA[`, and the text behind it.
pub fn cdata(text: &str) -> Result<(&str, &str), Stop>
    ensures read { Reads (IsUpTo is_legal (codes "]]>")) (chars text.now) (outcome (λ found. chars found.0.now) (λ found. chars found.1.now) result) }
    ensures shorter { IfOk result (λ found. length found.1.now ≤ length text.now) }
{
    up_to(text, "]]>", Allowed::Legal)
}
