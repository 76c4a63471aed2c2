//! Names.

ghost use Rattle.std.specs.Prelude.{chars, length, ◌<◌, IfOk};
ghost use Rattle.markup_parts.specs.Runs.{ReadsName};
ghost use Rattle.markup_parts.specs.Outcomes.{outcome};

use crate::chars::is_name_start;
use crate::stop::Stop;
use crate::text::{Class, first, is_nothing, run};

/// The name at the front, and the text behind it. A name at the end of the text is cut, since it may go on.
pub fn name(text: &str) -> Result<(&str, &str), Stop>
    ensures name { ReadsName (chars text.now) (outcome (λ found. chars found.0.now) (λ found. chars found.1.now) result) }
    ensures shorter { IfOk result (λ found. length found.1.now < length text.now) }
{
    let Some((c, _)) = first(text) else {
        return Err(Stop::Cut);
    };
    if !is_name_start(c) {
        return Err(Stop::Broken);
    }
    let (name, rest) = run(text, Class::Name);
    if is_nothing(rest) {
        return Err(Stop::Cut);
    }
    Ok((name, rest))
}
