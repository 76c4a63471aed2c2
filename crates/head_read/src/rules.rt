//! The rules of a master, whose references are good by the names of the file.
ghost use Rattle.std.specs.Prelude.{◌≡◌, ◌&&◌, not, chars};
ghost use Rattle.load_model.specs.declared.names.Key.TheVariants as key;
ghost use Rattle.load_model.specs.Values as values;
ghost use Rattle.load_model.specs.Values.{is_same_key};
ghost use Rattle.head_read.specs.Rules.{rules_by};

use element_parts::NameSet;
use load_model::{Attribute, Key};
use read_values::{Reading, is_read};
use sheet_names::Names;

const NAME_RULES: &[(Key, Reading)] = &[(Key::Name, Reading::Name)];

/// How many attributes of a master are left out and counted.
pub(crate) fn attributes_count(names: &Names, attributes: &[Attribute]) -> usize
    ensures { result ≡ values.attributes_left (rules_by names.now.layouts names.now.masters) attributes.now }
{
    attributes
        .iter()
        .filter(|attribute| is_left(names, attribute))
        .count()
}

// Whether an attribute is left out and counted.
fn is_left(names: &Names, attribute: &Attribute) -> bool
    ensures { result ≡ (not (values.is_read (rules_by names.now.layouts names.now.masters) attribute.now) && not (is_same_key attribute.now.key key.Uncounted)) }
{
    !is_good(&names.layouts, &names.masters, attribute) && !is_uncounted(attribute.key)
}

// Whether an attribute is never counted.
fn is_uncounted(one: Key) -> bool
    ensures { result ≡ is_same_key one key.Uncounted }
{
    one == Key::Uncounted
}

// Whether an attribute has a rule, and a value that is good.
fn is_good(layouts: &NameSet, masters: &NameSet, attribute: &Attribute) -> bool
    ensures { result ≡ values.is_read (rules_by layouts.now masters.now) attribute.now }
{
    match attribute.key {
        Key::Layout => layouts.has(attribute.text.get()),
        Key::Next => masters.has(attribute.text.get()),
        _ => is_read(NAME_RULES, attribute),
    }
}
