//! The parts of a root that hold its text.
ghost use Rattle.std.specs.Prelude.{◌≡◌, ◌||◌, false, chars, codes};
ghost use Rattle.std.specs.Option.{option_map, option_map_or};
ghost use Rattle.std.specs.Str.{bytes_eq};
ghost use Rattle.load_model.specs.declared.element.Element.{out-Element};
ghost use Rattle.load_model.specs.declared.names.Key.TheVariants as key;
ghost use Rattle.load_model.specs.Left.{attributes_of};
ghost use Rattle.load_model.specs.Loaded as loaded;
ghost use Rattle.load_model.specs.Loaded.{body_of, text_of};
ghost use Rattle.load_model.specs.Values as values;
ghost use Rattle.load_model.specs.Values.{stated_or};

use element_parts::first;
use load_model::{Attribute, Element, Key, Tag};
use read_values::{truth, value_of};

const MASTER: &str = "application/vnd.oasis.opendocument.text-master";

/// The body that is read: the first.
pub(crate) fn body_in(root: &Element) -> Option<&Element>
    ensures { option_map (λ body. body.now) result ≡ body_of root.now }
{
    first(Tag::Body, root)
}

/// The text that is read: the first in the body.
pub(crate) fn text_in(root: &Element) -> Option<&Element>
    ensures { option_map (λ text. text.now) result ≡ text_of root.now }
{
    match body_in(root) {
        Some(body) => first(Tag::Text, body),
        None => None,
    }
}

/// The place of the text, or 0 where there is none.
pub(crate) fn text_place(root: &Element) -> u32
    ensures { result ≡ option_map_or (λ text. (out-Element text).place) (text_of root.now) 0 }
{
    match text_in(root) {
        Some(text) => text.place,
        None => 0,
    }
}

/// Whether a file is a master document: by its media type, or as its text says.
pub(crate) fn is_global(root: &Element) -> bool
    ensures { result ≡ loaded.is_global root.now }
{
    if has_master_type(root.attributes.get()) {
        return true;
    }
    has_global_text(root)
}

// Whether attributes state the media type of a master document.
fn has_master_type(attributes: &[Attribute]) -> bool
    ensures { result ≡ option_map_or (bytes_eq (codes "application/vnd.oasis.opendocument.text-master")) (values.value_of key.Mimetype attributes.now) false }
{
    match value_of(Key::Mimetype, attributes) {
        Some(text) => is_master_type(text),
        None => false,
    }
}

// Whether a media type is that of a master document.
fn is_master_type(text: &str) -> bool
    ensures { result ≡ bytes_eq (codes "application/vnd.oasis.opendocument.text-master") (chars text.now) }
{
    text == MASTER
}

// Whether the text says that the file is a master document.
fn has_global_text(root: &Element) -> bool
    ensures { result ≡ option_map_or (λ text. stated_or key.Global values.truth false (attributes_of text)) (text_of root.now) false }
{
    match text_in(root) {
        Some(text) => states_global(text.attributes.get()),
        None => false,
    }
}

// Whether attributes state that a file is a master document.
fn states_global(attributes: &[Attribute]) -> bool
    ensures { result ≡ stated_or key.Global values.truth false attributes.now }
{
    match value_of(Key::Global, attributes) {
        Some(text) => is_true(text),
        None => false,
    }
}

// Whether a text is the truth value of what holds.
fn is_true(text: &str) -> bool
    ensures { result ≡ option_map_or (λ value. value) (values.truth (chars text.now)) false }
{
    match truth(text) {
        Some(value) => value,
        None => false,
    }
}
