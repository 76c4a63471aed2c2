//! Characters that stand for themselves.

ghost use Rattle.std.specs.Prelude.{◌<◌, chars, length, IfOk};
ghost use Rattle.markup_parts.specs.Constructs.{IsLiteral};
ghost use Rattle.markup_parts.specs.Outcomes.{Reads, outcome};

use crate::chars::is_legal;
use crate::stop::Stop;
use crate::text::first;

/// The character at the front, and the text behind it. CR LF and CR are a line feed.
pub fn literal(text: &str) -> Result<(char, &str), Stop>
    ensures read { Reads IsLiteral (chars text.now) (outcome (λ found. found.0) (λ found. chars found.1.now) result) }
    ensures shorter { IfOk result (λ found. length found.1.now < length text.now) }
{
    match first(text) {
        None => Err(Stop::Cut),
        Some(('\r', behind)) => match first(behind) {
            None => Err(Stop::Cut),
            Some(('\n', rest)) => Ok(('\n', rest)),
            Some(_) => Ok(('\n', behind)),
        },
        Some((c, _)) if !is_legal(c) => Err(Stop::Broken),
        Some((c, behind)) => Ok((c, behind)),
    }
}
