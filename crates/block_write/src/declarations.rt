//! Declarations of variables and sequences.

ghost use Rattle.std.specs.Prelude.{◌≡◌, ◌++◌, [], ◌∷◌, chars, string_bytes, codes, map, OnOk};
ghost use Rattle.tree_text.specs.Writing.{child_text, content_text};
ghost use Rattle.written_model.specs.Elements as elements;
ghost use Rattle.written_model.specs.Elements.{empty_element};
ghost use Rattle.written_model.specs.Written.{variable_declarations, sequence_declarations};
ghost use Rattle.block_write.specs.Declarations.{variable_element, sequence_element};

use doc_model::Name;
use element_text::{push_empty_end, push_end, push_name, push_tag_end};
use std::alloc::AllocError;
use value_write::push_text;

/// Adds a declaration: an element with an attribute and a name.
fn push_declaration(
    out: &mut String,
    tag: &str,
    attribute: &str,
    value: &str,
    name: &str,
) -> Result<(), AllocError>
    ensures { OnOk result (chars (string_bytes out.new) ≡ chars (string_bytes out.old)
        ++ child_text (empty_element (chars tag.now) (elements.attribute (chars attribute.now) (chars value.now) ∷ elements.attribute (codes "text:name") (chars name.now) ∷ []))) }
{
    push_name(out, tag)?;
    push_text(out, attribute, value)?;
    push_text(out, "text:name", name)?;
    push_empty_end(out)
}

/// Adds a declared variable.
fn push_variable(out: &mut String, name: &Name) -> Result<(), AllocError>
    ensures { OnOk result (chars (string_bytes out.new) ≡ chars (string_bytes out.old) ++ child_text (variable_element name.now)) }
{
    push_declaration(
        out,
        "text:variable-decl",
        "office:value-type",
        "string",
        name.get(),
    )
}

/// Adds a declared sequence.
fn push_sequence(out: &mut String, name: &Name) -> Result<(), AllocError>
    ensures { OnOk result (chars (string_bytes out.new) ≡ chars (string_bytes out.old) ++ child_text (sequence_element name.now)) }
{
    push_declaration(
        out,
        "text:sequence-decl",
        "text:display-outline-level",
        "0",
        name.get(),
    )
}

/// Adds declared variables, one after another.
fn push_each_variable(out: &mut String, names: &[Name]) -> Result<(), AllocError>
    ensures { OnOk result (chars (string_bytes out.new) ≡ chars (string_bytes out.old) ++ content_text (map variable_element names.now)) }
{
    for name in names {
        push_variable(out, name)?;
    }
    Ok(())
}

/// Adds declared sequences, one after another.
fn push_each_sequence(out: &mut String, names: &[Name]) -> Result<(), AllocError>
    ensures { OnOk result (chars (string_bytes out.new) ≡ chars (string_bytes out.old) ++ content_text (map sequence_element names.now)) }
{
    for name in names {
        push_sequence(out, name)?;
    }
    Ok(())
}

/// Adds the declarations of variables, if there are variables.
pub fn push_variables(out: &mut String, names: &[Name]) -> Result<(), AllocError>
    ensures { OnOk result (chars (string_bytes out.new) ≡ chars (string_bytes out.old) ++ content_text (variable_declarations names.now)) }
{
    if names.is_empty() {
        return Ok(());
    }
    push_name(out, "text:variable-decls")?;
    push_tag_end(out)?;
    push_each_variable(out, names)?;
    push_end(out, "text:variable-decls")
}

/// Adds those of sequences.
pub fn push_sequences(out: &mut String, names: &[Name]) -> Result<(), AllocError>
    ensures { OnOk result (chars (string_bytes out.new) ≡ chars (string_bytes out.old) ++ content_text (sequence_declarations names.now)) }
{
    if names.is_empty() {
        return Ok(());
    }
    push_name(out, "text:sequence-decls")?;
    push_tag_end(out)?;
    push_each_sequence(out, names)?;
    push_end(out, "text:sequence-decls")
}
