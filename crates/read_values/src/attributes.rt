//! Attributes, looked up by their keys.
ghost use Rattle.std.specs.Prelude.{◌≡◌, chars, map, not, ◌&&◌};
ghost use Rattle.std.specs.Option.{option_map};
ghost use Rattle.load_model.specs.declared.names.Key.TheVariants as key;
ghost use Rattle.load_model.specs.Values.{is_same_key};
ghost use Rattle.load_model.specs.Values as values;
ghost use Rattle.read_values.specs.Readings.{rule_of};

use crate::readings::Reading;
use load_model::{Attribute, Key};

/// The value of the first attribute of a key, if there is one.
pub fn value_of(wanted: Key, attributes: &[Attribute]) -> Option<&str>
    ensures { option_map (λ value. chars value.now) result ≡ values.value_of wanted attributes.now }
{
    'attributes: for attribute in attributes {
        if is_same_key(attribute.key, wanted) {
            return Some(attribute.text.get());
        }
    }
    None
}

// Whether two keys are the same.
fn is_same_key(one: Key, other: Key) -> bool
    ensures { result ≡ is_same_key one other }
{
    one == other
}

/// How many attributes are left out and counted: those that no rule reads, but for the ones that are never counted. A rule
/// is a key and how its value is read; of two rules of one key the first holds.
pub fn attributes_left(rules: &[(Key, Reading)], attributes: &[Attribute]) -> usize
    ensures { result ≡ values.attributes_left (map rule_of rules.now) attributes.now }
{
    attributes
        .iter()
        .filter(|attribute| is_left(rules, attribute))
        .count()
}

// Whether an attribute is left out and counted.
fn is_left(rules: &[(Key, Reading)], attribute: &Attribute) -> bool
    ensures { result ≡ (not (values.is_read (map rule_of rules.now) attribute.now) && not (is_same_key attribute.now.key key.Uncounted)) }
{
    !is_read(rules, attribute) && !is_same_key(attribute.key, Key::Uncounted)
}

/// Whether an attribute has a rule, and a value that is good by the first one.
pub fn is_read(rules: &[(Key, Reading)], attribute: &Attribute) -> bool
    ensures { result ≡ values.is_read (map rule_of rules.now) attribute.now }
{
    'rules: for rule in rules {
        if is_same_key(rule.0, attribute.key) {
            return rule.1.is_good(attribute.text.get());
        }
    }
    false
}
