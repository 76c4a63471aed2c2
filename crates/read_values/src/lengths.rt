//! Lengths.
ghost use Rattle.std.specs.Prelude.{◌≡◌, chars};
ghost use Rattle.load_model.specs.Values as values;

use doc_model::Length;

/// A length, in whole units of which an inch has 914400.
pub fn length(text: &str) -> Option<Length>
    ensures { result ≡ values.length_value (chars text.now) }
{
    page_style::length(text)
}
