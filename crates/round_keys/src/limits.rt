//! How much a paragraph may have for its key to be made.

ghost use Rattle.std.specs.Prelude.{◌≡◌, ◌≤◌, ◌+◌, length, chars, IsTrue};
ghost use Rattle.std.specs.List.{AllByRecursion as Each};
ghost use Rattle.key_parts.specs.Shows.{IsShort};

use doc_model::{Item, Txt};
use field_model::Shown;

/// Whether items, told in two parts, are at most 32768.
pub(crate) fn are_few(items: &[Item], more_items: &[Item]) -> bool
    ensures { IsTrue result → length items.now + length more_items.now ≤ 32768 }
{
    if items.len() > 32768 {
        return false;
    }
    more_items.len() <= 32768 - items.len()
}

/// Whether a text has at most 512 characters.
pub(crate) fn is_short(text: &Txt) -> bool
    ensures { IsTrue result → length text.now ≤ 512 }
{
    character_count(text.get()) <= 512
}

/// How many characters a text has.
fn character_count(text: &str) -> usize
    ensures { result ≡ length (chars text.now) }
{
    text.chars().count()
}

/// Whether each text of fields and citations has at most 512 characters.
pub(crate) fn are_short(shown: &[Shown]) -> bool
    ensures { IsTrue result → Each IsShort shown.now }
{
    let mut left = shown;
    'texts: while let [one, behind @ ..] = left {
        if !is_short(&one.text) {
            return false;
        }
        left = behind;
    }
    true
}
