//! The rules of a style, whose references are good by the names of the file.
ghost use Rattle.std.specs.Prelude.{◌≡◌, ◌&&◌, ◌||◌, [], not, map, chars};
ghost use Rattle.std.specs.Str.{bytes_eq};
ghost use Rattle.load_model.specs.declared.names.Key.TheVariants as key;
ghost use Rattle.load_model.specs.Left.{is_one_of};
ghost use Rattle.load_model.specs.Values as values;
ghost use Rattle.load_model.specs.Values.{is_same_key};
ghost use Rattle.sheet_names.specs.Known.{of_family};
ghost use Rattle.sheet_styles.specs.Rules.{rules_by};

use doc_model::Family;
use load_model::{Attribute, Key};
use read_values::{Reading, is_read};
use sheet_names::{Names, is_empty};

/// The rules that name nothing else.
const PLAIN_RULES: &[(Key, Reading)] = &[
    (Key::Name, Reading::Name),
    (Key::Family, Reading::Family),
    (Key::DefaultOutlineLevel, Reading::Level),
];

/// How many attributes of a style of a family are left out and counted.
pub fn attributes_count(names: &Names, family: Family, attributes: &[Attribute]) -> usize
    ensures { result ≡ values.attributes_left (rules_by (of_family names.now.styles family) names.now.masters) attributes.now }
{
    attributes
        .iter()
        .filter(|attribute| is_left(names, family, attribute))
        .count()
}

// Whether an attribute is left out and counted.
fn is_left(names: &Names, family: Family, attribute: &Attribute) -> bool
    ensures { result ≡ (not (values.is_read (rules_by (of_family names.now.styles family) names.now.masters) attribute.now) && not (is_same_key attribute.now.key key.Uncounted)) }
{
    !is_good(names, family, attribute) && !is_uncounted(attribute.key)
}

// Whether an attribute is never counted.
fn is_uncounted(one: Key) -> bool
    ensures { result ≡ is_same_key one key.Uncounted }
{
    one == Key::Uncounted
}

// Whether an attribute has a rule, and a value that is good.
fn is_good(names: &Names, family: Family, attribute: &Attribute) -> bool
    ensures { result ≡ values.is_read (rules_by (of_family names.now.styles family) names.now.masters) attribute.now }
{
    let text = attribute.text.get();
    match attribute.key {
        Key::Parent => names.styles.has(family, text),
        Key::Next => names.styles.has(family, text),
        Key::Master => is_master(names, text),
        _ => is_read(PLAIN_RULES, attribute),
    }
}

// Whether a text is the empty one or the name of a master.
fn is_master(names: &Names, text: &str) -> bool
    ensures { result ≡ (bytes_eq (chars text.now) [] || is_one_of names.now.masters (chars text.now)) }
{
    is_empty(text) || names.masters.has(text)
}
