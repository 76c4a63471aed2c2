//! The escapes for writing.

ghost use Rattle.std.specs.Prelude.{◌≡◌, [], ◌∷◌, ◌++◌, true, chars, codes, string_bytes, IfOk, OnOk};
ghost use Rattle.std.specs.List.{AllByRecursion as Each};
ghost use Rattle.markup_parts.specs.Chars.{is_legal};
ghost use Rattle.markup_tags.specs.Tags.{IsValue};
ghost use Rattle.markup_tree.specs.Escapes as escapes;
ghost use Rattle.markup_parts.specs.Outcomes.{IsRead};
ghost use Rattle.markup_tree.specs.Pieces.{line_ends};

use markup_parts::first;
use std::alloc::{AllocError, Global};

/// A text as character data: `&`, `<` and `>` as entities. A carriage return stays, and is read back as a line feed.
pub fn escape_text(alloc: Global, text: &str) -> Result<String, AllocError>
    ensures escaped { IfOk result (λ out. chars (string_bytes out) ≡ escapes.escaped_text (chars text.now)) }
    // Legal characters are read back from it in front of markup, with line feeds for their line ends.
    ensures read_back { Each (λ c. is_legal c ≡ true) (chars text.now)
        → IfOk result (λ out. IsRead escapes.IsCharacterData (chars (string_bytes out) ++ codes "<") (line_ends (chars text.now)) []) }
{
    let mut out = String::new(alloc);
    let mut rest = text;
    'characters: while let Some((c, behind)) = first(rest) {
        push_text(&mut out, c)?;
        rest = behind;
    }
    Ok(out)
}

/// Adds a character as character data.
pub fn push_text(out: &mut String, c: char) -> Result<(), AllocError>
    ensures { OnOk result (chars (string_bytes out.new) ≡ chars (string_bytes out.old) ++ escapes.text_escape c) }
{
    match c {
        '&' => out.push_str("&amp;"),
        '<' => out.push_str("&lt;"),
        '>' => out.push_str("&gt;"),
        _ => out.push(c),
    }
}

/// A text as an attribute value in double quotes: that, and `"`, U+9, U+A and U+D as references.
pub fn escape_value(alloc: Global, text: &str) -> Result<String, AllocError>
    ensures escaped { IfOk result (λ out. chars (string_bytes out) ≡ escapes.escaped_value (chars text.now)) }
    // Legal characters are read back from it in front of a double quote.
    ensures read_back { Each (λ c. is_legal c ≡ true) (chars text.now)
        → IfOk result (λ out. IsRead (IsValue 0x22) (chars (string_bytes out) ++ 0x22 ∷ []) (chars text.now) []) }
{
    let mut out = String::new(alloc);
    let mut rest = text;
    'characters: while let Some((c, behind)) = first(rest) {
        push_value(&mut out, c)?;
        rest = behind;
    }
    Ok(out)
}

/// Adds a character as one of an attribute value.
pub fn push_value(out: &mut String, c: char) -> Result<(), AllocError>
    ensures { OnOk result (chars (string_bytes out.new) ≡ chars (string_bytes out.old) ++ escapes.value_escape c) }
{
    match c {
        '"' => out.push_str("&quot;"),
        '\t' => out.push_str("&#9;"),
        '\n' => out.push_str("&#10;"),
        '\r' => out.push_str("&#13;"),
        _ => push_text(out, c),
    }
}
