//! The root of a tree.
ghost use Rattle.std.specs.Prelude.{◌≡◌, not, false, chars, nat_lt, IsTrue, option_to_list};
ghost use Rattle.std.specs.List.{list_all};
ghost use Rattle.std.specs.Str.{bytes_eq};
ghost use Rattle.std.specs.Option.{option_map_or};
ghost use Rattle.load_model.specs.declared.names.Key.TheVariants as key;
ghost use Rattle.load_model.specs.declared.names.Tag.TheVariants as tag;
ghost use Rattle.load_model.specs.Left as left;
ghost use Rattle.load_model.specs.Left.{attributes_of};
ghost use Rattle.load_model.specs.Offences as offences;
ghost use Rattle.load_model.specs.Offences.{place_if, place_of};
ghost use Rattle.load_model.specs.Values as values;

use element_parts::is;
use load_model::{Attribute, Element, Key, Tag};
use read_values::value_of;

/// The media types of a text and of a master document.
const TEXT: &str = "application/vnd.oasis.opendocument.text";

const MASTER: &str = "application/vnd.oasis.opendocument.text-master";

/// The place of a root that isn't 'office:document'.
pub fn wrong_root(root: &Element) -> Option<u32>
    ensures { option_to_list result ≡ place_if (not (left.is tag.Document root.now)) (place_of root.now) }
{
    if is(Tag::Document, root) {
        return None;
    }
    Some(root.place)
}

/// The place of a root whose media type isn't that of a text or of a master document.
pub fn wrong_mimetype(root: &Element) -> Option<u32>
    ensures { option_to_list result ≡ place_if (not (option_map_or offences.is_mimetype (values.value_of key.Mimetype (attributes_of root.now)) false)) (place_of root.now) }
{
    if has_mimetype(root.attributes.get()) {
        return None;
    }
    Some(root.place)
}

// Whether attributes state the media type of a text or of a master document.
fn has_mimetype(attributes: &[Attribute]) -> bool
    ensures { result ≡ option_map_or offences.is_mimetype (values.value_of key.Mimetype attributes.now) false }
{
    match value_of(Key::Mimetype, attributes) {
        Some(text) => is_mimetype(text),
        None => false,
    }
}

// Whether a media type is that of a text or of a master document.
fn is_mimetype(text: &str) -> bool
    ensures { result ≡ offences.is_mimetype (chars text.now) }
{
    if is_word(text, TEXT) {
        return true;
    }
    is_word(text, MASTER)
}

// Whether a text is this word of ASCII characters.
fn is_word(text: &str, word: &str) -> bool
    requires { IsTrue (list_all (λ byte. nat_lt byte 128) word.now) }
    ensures { result ≡ bytes_eq (chars text.now) word.now }
{
    text == word
}
