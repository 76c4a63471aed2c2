//! Attributes by their values.

ghost use Rattle.std.specs.Prelude.{◌≡◌, ◌++◌, [], ◌∷◌, chars, string_bytes, decimal, OnOk};
ghost use Rattle.std.specs.List.{flat_map};
ghost use Rattle.tree_text.specs.Writing.{attr_text};
ghost use Rattle.written_model.specs.Elements.{attribute, unless_empty};
ghost use Rattle.written_model.specs.Values.{whole_text};

use element_text::push_attribute;
use markup_parts::is_nothing;
use std::alloc::AllocError;

/// Adds an attribute with a text.
pub fn push_text(out: &mut String, name: &str, value: &str) -> Result<(), AllocError>
    ensures { OnOk result (chars (string_bytes out.new) ≡ chars (string_bytes out.old) ++ flat_map attr_text (attribute (chars name.now) (chars value.now) ∷ [])) }
{
    push_attribute(out, name, value)
}

/// Adds an attribute where its value isn't empty.
pub fn push_unless_empty(out: &mut String, name: &str, value: &str) -> Result<(), AllocError>
    ensures { OnOk result (chars (string_bytes out.new) ≡ chars (string_bytes out.old) ++ flat_map attr_text (unless_empty (chars name.now) (chars value.now))) }
{
    if is_nothing(value) {
        return Ok(());
    }
    push_text(out, name, value)
}

/// Adds an attribute with a number.
pub fn push_number(out: &mut String, name: &str, number: u32) -> Result<(), AllocError>
    ensures { OnOk result (chars (string_bytes out.new) ≡ chars (string_bytes out.old) ++ flat_map attr_text (attribute (chars name.now) (decimal number) ∷ [])) }
{
    let text = number.to_string(*out.allocator())?;
    push_text(out, name, text.as_str())
}

/// Adds an attribute with a number that may be below 0.
pub fn push_whole(out: &mut String, name: &str, number: i32) -> Result<(), AllocError>
    ensures { OnOk result (chars (string_bytes out.new) ≡ chars (string_bytes out.old) ++ flat_map attr_text (attribute (chars name.now) (whole_text number) ∷ [])) }
{
    let text = number.to_string(*out.allocator())?;
    push_text(out, name, text.as_str())
}
