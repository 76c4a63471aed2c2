//! What is left out.
ghost use Rattle.std.specs.Prelude.{◌≡◌, map};
ghost use Rattle.std.specs.Option.{option_map};
ghost use Rattle.load_model.specs.Left as left;
ghost use Rattle.load_model.specs.Left.{Left, attributes_of};
ghost use Rattle.load_model.specs.Loaded.{counted};
ghost use Rattle.load_model.specs.Styles as styles;
ghost use Rattle.load_model.specs.Values as values;
ghost use Rattle.read_values.specs.Readings.{rule_of};
ghost use Rattle.element_parts.specs.Shown.{shown};

use load_model::{Element, Key};
use read_values::{Reading, attributes_left};

/// How many elements and attributes are left out; each count stops at the greatest number of 32 bits.
#[derive(Debug, Clone, Copy, PartialEq, Eq)]
pub struct LeftOut {
    /// Elements.
    pub elements: u32,
    /// Attributes.
    pub attributes: u32,
}

impl LeftOut {
    /// Nothing is left out.
    pub fn nothing() -> LeftOut
        ensures { result ≡ shown left.nothing }
    {
        LeftOut {
            elements: 0,
            attributes: 0,
        }
    }

    /// So many elements are left out.
    pub fn elements(count: usize) -> LeftOut
        ensures { result ≡ shown (left.only_elements count) }
    {
        LeftOut {
            elements: shown(count),
            attributes: 0,
        }
    }

    /// So many attributes are left out.
    pub fn attributes(count: usize) -> LeftOut
        ensures { result ≡ shown (left.only_attributes count) }
    {
        LeftOut {
            elements: 0,
            attributes: shown(count),
        }
    }

    /// What is left out in two places.
    pub fn both(self, other: LeftOut) -> LeftOut
        ensures { (one two : Left) → self ≡ shown one → other ≡ shown two → result ≡ shown (left.both one two) }
    {
        LeftOut {
            elements: self.elements.saturating_add(other.elements),
            attributes: self.attributes.saturating_add(other.attributes),
        }
    }
}

// A count, or the greatest number of 32 bits.
fn shown(count: usize) -> u32
    ensures { result ≡ counted count }
{
    if count > u32::MAX as usize {
        return u32::MAX;
    }
    count as u32
}

/// What is left out in an element in which no other has a rule.
pub fn leaf_left(element: &Element) -> LeftOut
    ensures { result ≡ shown (left.leaf_left element.now) }
{
    LeftOut::elements(element.nodes.len())
}

/// The attributes of an element that are left out, where it has these rules.
pub fn attributes_out(rules: &[(Key, Reading)], element: &Element) -> LeftOut
    ensures { result ≡ shown (left.only_attributes (values.attributes_left (map rule_of rules.now) (attributes_of element.now))) }
{
    LeftOut::attributes(attributes_left(rules, element.attributes.get()))
}

/// What is left out in an element with these rules in which no other has a rule.
pub fn own_left(rules: &[(Key, Reading)], element: &Element) -> LeftOut
    ensures { result ≡ shown (left.both (left.only_attributes (values.attributes_left (map rule_of rules.now) (attributes_of element.now))) (left.leaf_left element.now)) }
{
    attributes_out(rules, element).both(leaf_left(element))
}

/// What is left out in a part with these rules, if it is there: attributes, and all elements.
pub fn part_left(rules: &[(Key, Reading)], part: Option<&Element>) -> LeftOut
    ensures { result ≡ shown (styles.part_left (map rule_of rules.now) (option_map (λ element. element.now) part.entry)) }
{
    match part {
        Some(element) => own_left(rules, element),
        None => LeftOut::nothing(),
    }
}
