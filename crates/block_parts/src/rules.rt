//! Rules of which one is that of a reference ('text:style-name'), which is good by the names of the file.
ghost use Rattle.std.specs.Prelude.{◌≡◌, ◌∷◌, ◌&&◌, not, map, chars};
ghost use Rattle.load_model.specs.declared.names.Key.TheVariants as key;
ghost use Rattle.load_model.specs.Left as left;
ghost use Rattle.load_model.specs.Left.{is_one_of, attributes_of};
ghost use Rattle.load_model.specs.Values as values;
ghost use Rattle.load_model.specs.Values.{rule, is_same_key};
ghost use Rattle.load_model.specs.Styles.{reference};
ghost use Rattle.read_values.specs.Readings.{rule_of};
ghost use Rattle.element_parts.specs.Shown.{shown};
ghost use Rattle.block_parts.specs.Names.{names_in};

use doc_model::Family;
use element_parts::LeftOut;
use load_model::{Attribute, Element, Key};
use read_values::{Reading, is_read};
use sheet_names::Names;

/// What a style name refers to.
#[derive(Debug, Clone, Copy, PartialEq, Eq)]
pub enum Reference {
    /// A style of a family.
    Style(Family),
    /// A list style.
    List,
}

impl Reference {
    // Whether a text is one of the names that can be referred to.
    pub(crate) fn is_there(self, names: &Names, text: &str) -> bool
        ensures { result ≡ is_one_of (names_in self names.now) (chars text.now) }
    {
        match self {
            Reference::Style(family) => names.styles.has(family, text),
            Reference::List => names.lists.has(text),
        }
    }
}

/// The attributes of an element that are left out, where its style name is such a reference and it has these other rules.
pub fn left_beside(
    names: &Names,
    to: Reference,
    rules: &[(Key, Reading)],
    element: &Element,
) -> LeftOut
    ensures { result ≡ shown (left.only_attributes (values.attributes_left (rule key.StyleName (reference (names_in to names.now)) ∷ map rule_of rules.now) (attributes_of element.now))) }
{
    LeftOut::attributes(count_left(names, to, rules, element.attributes.get()))
}

// How many of some attributes are left out and counted.
fn count_left(
    names: &Names,
    to: Reference,
    rules: &[(Key, Reading)],
    attributes: &[Attribute],
) -> usize
    ensures { result ≡ values.attributes_left (rule key.StyleName (reference (names_in to names.now)) ∷ map rule_of rules.now) attributes.now }
{
    attributes
        .iter()
        .filter(|attribute| is_left(names, to, rules, attribute))
        .count()
}

// Whether an attribute is left out and counted.
fn is_left(names: &Names, to: Reference, rules: &[(Key, Reading)], attribute: &Attribute) -> bool
    ensures { result ≡ (not (values.is_read (rule key.StyleName (reference (names_in to names.now)) ∷ map rule_of rules.now) attribute.now) && not (is_same_key attribute.now.key key.Uncounted)) }
{
    !is_good(names, to, rules, attribute) && !is_uncounted(attribute.key)
}

// Whether an attribute is never counted.
fn is_uncounted(one: Key) -> bool
    ensures { result ≡ is_same_key one key.Uncounted }
{
    one == Key::Uncounted
}

// Whether an attribute is a style name.
fn is_style_name(one: Key) -> bool
    ensures { result ≡ is_same_key key.StyleName one }
{
    Key::StyleName == one
}

// Whether an attribute has a rule, and a value that is good.
fn is_good(names: &Names, to: Reference, rules: &[(Key, Reading)], attribute: &Attribute) -> bool
    ensures { result ≡ values.is_read (rule key.StyleName (reference (names_in to names.now)) ∷ map rule_of rules.now) attribute.now }
{
    if is_style_name(attribute.key) {
        return to.is_there(names, attribute.text.get());
    }
    is_read(rules, attribute)
}
