//! Attributes.

ghost use Rattle.std.specs.Prelude.{◌≡◌, ◌++◌, chars, string_bytes, map, OnOk};
ghost use Rattle.std.specs.List.{flat_map};
ghost use Rattle.tree_text.specs.Writing.{attr_text};
ghost use Rattle.element_text.specs.Attributes.{attr_of};

use crate::escaped::push_value;
use crate::pieces::push_plain;
use std::alloc::AllocError;

/// An attribute to be written.
#[derive(Debug, Clone, Copy)]
pub struct Attribute<'a> {
    /// The name, with its prefix.
    pub name: &'a str,
    /// The value, without escapes.
    pub value: &'a str,
}

/// Adds an attribute behind a space, with its value in double quotes.
pub fn push_attribute(out: &mut String, name: &str, value: &str) -> Result<(), AllocError>
    ensures { OnOk result (chars (string_bytes out.new) ≡ chars (string_bytes out.old) ++ attr_text (record { name = chars name.now; value = chars value.now })) }
{
    push_plain(out, " ")?;
    push_plain(out, name)?;
    push_plain(out, "=\"")?;
    push_value(out, value)?;
    push_plain(out, "\"")
}

/// Adds attributes in their order.
pub fn push_attributes(out: &mut String, attributes: &[Attribute<'_>]) -> Result<(), AllocError>
    ensures { OnOk result (chars (string_bytes out.new) ≡ chars (string_bytes out.old) ++ flat_map attr_text (map attr_of attributes.now)) }
{
    let mut left = attributes;
    'attributes: while let [attribute, after @ ..] = left {
        push_attribute(out, attribute.name, attribute.value)?;
        left = after;
    }
    Ok(())
}
