//! Texts in quotes.

ghost use Rattle.std.specs.Prelude.{◌≡◌, ℕ, List, IfOk, MatchOption};
ghost use Rattle.script_lang.specs.Parts.{Finds, IsQuoted, SpellsLineText};

use crate::escapes::next_char;
use doc_model::Txt;
use std::alloc::{AllocError, Global};

/// What stands between the first byte and the last, where both are quotes.
pub(crate) fn between_quotes(bytes: &[u8]) -> Option<&[u8]>
    ensures { MatchOption result ((inside : List ℕ) → IsQuoted bytes.now inside → ⊥)
        (λ inside. IsQuoted bytes.now inside.now) }
{
    match bytes {
        [b'"', inside @ .., b'"'] => Some(inside),
        _ => None,
    }
}

/// The text that bytes between quotes spell, where a line can insert it.
pub(crate) fn read_text(alloc: Global, bytes: &[u8]) -> Result<Option<Txt>, AllocError>
    ensures { IfOk result (Finds (SpellsLineText bytes.now)) }
{
    let mut text = String::new(alloc);
    let mut rest = bytes;
    'chars: while !rest.is_empty() {
        match next_char(rest) {
            Some((c, after)) => {
                text.push(char::from(c))?;
                rest = after;
            }
            None => return Ok(None),
        }
    }
    if bytes.is_empty() {
        Ok(None)
    } else {
        Ok(Some(Txt::from_list(text)))
    }
}
