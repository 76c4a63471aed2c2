//! Escaped characters, a run of them at once.

ghost use Rattle.std.specs.Prelude.{◌≡◌, ◌++◌, chars, string_bytes, OnOk};
ghost use Rattle.markup_tree.specs.Escapes.{escaped_text, escaped_value};

use markup_parts::{Class, first, run};
use std::alloc::AllocError;

/// Adds a text as character data: `&`, `<` and `>` as entities. A carriage return stays, and is read back as a line feed.
pub fn push_run(out: &mut String, text: &str) -> Result<(), AllocError>
    ensures { OnOk result (chars (string_bytes out.new) ≡ chars (string_bytes out.old) ++ escaped_text (chars text.now)) }
{
    let mut rest = text;
    'characters: loop {
        let (plain, front) = run(rest, Class::Plain);
        out.push_str(plain)?;
        let Some((c, behind)) = first(front) else {
            return Ok(());
        };
        markup_tree::push_text(out, c)?;
        rest = behind;
    }
}

/// Adds a text as an attribute value in double quotes, without these: `&`, `<`, `>` and `"` as entities, and U+9, U+A and
/// U+D by their numbers.
pub fn push_value(out: &mut String, text: &str) -> Result<(), AllocError>
    ensures { OnOk result (chars (string_bytes out.new) ≡ chars (string_bytes out.old) ++ escaped_value (chars text.now)) }
{
    let mut rest = text;
    'characters: loop {
        let (plain, front) = run(rest, Class::Plain);
        out.push_str(plain)?;
        let Some((c, behind)) = first(front) else {
            return Ok(());
        };
        markup_tree::push_value(out, c)?;
        rest = behind;
    }
}
