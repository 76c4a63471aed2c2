//! Elements whose names are resolved.

ghost use Rattle.std.specs.Prelude.{◌≡◌};

use crate::names::{Key, Tag};
use markup_nodes::{Nodes, Word};
use std::marker::Model;

/// An attribute with its value.
#[derive(Debug, Drop)]
pub struct Attribute {
    /// What it is.
    pub key: Key,
    /// Its value.
    pub text: Word,
}

/// The attributes of an element in their order, which contracts see as a list.
#[derive(Debug, Drop)]
pub struct Attributes {
    attributes: Vec<Attribute>,
}

impl Model for Attributes {
    ghost use Rattle.std.specs.Prelude.{List};
    ghost use Rattle.std.specs.Coded.{coded_list};
    ghost use Rattle.load_model.specs.declared.element.Attribute.{Attribute};

    ghost Value = { List Attribute };

    ghost view = { λ a. a.attributes.items };
}

impl Attributes {
    /// The attributes of a vector. It takes no memory.
    pub fn from_vec(attributes: Vec<Attribute>) -> Attributes
        ensures { result ≡ attributes.items }
    {
        Attributes { attributes }
    }

    /// The attributes, lent.
    pub fn get(&self) -> &[Attribute]
        ensures { result.now ≡ self.now }
    {
        self.attributes.as_slice()
    }
}

/// An element by what its name means where it stands.
#[derive(Debug, Drop)]
pub struct Element {
    /// The place of the `<` of its tag, in bytes from 0.
    pub place: u32,
    /// What it is.
    pub tag: Tag,
    /// Its attributes in their order.
    pub attributes: Attributes,
    /// What it holds, in its order.
    pub nodes: Nodes<Element>,
}
