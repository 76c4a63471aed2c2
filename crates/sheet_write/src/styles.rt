//! Styles and the default style.

ghost use Rattle.std.specs.Prelude.{◌≡◌, ◌++◌, [], ◌∷◌, chars, string_bytes, codes, OnOk};
ghost use Rattle.std.specs.List.{flat_map};
ghost use Rattle.sheet_write.specs.Held.{held_text};
ghost use Rattle.sheet_write.specs.Sheets.{style_attributes};
ghost use Rattle.tree_text.specs.Writing.{attr_text, child_text, content_text};
ghost use Rattle.written_model.specs.Elements.{attribute, where_stated, properties};
ghost use Rattle.written_model.specs.Styles.{paragraph_attributes, text_attributes, property_elements, outline_attribute, style_element, default_style};
ghost use Rattle.written_model.specs.Values as named;

use crate::states::{states_paragraph, states_something, states_text};
use doc_model::{Family, Name, Props, Style};
use element_text::{push_empty_end, push_end, push_name, push_tag_end};
use std::alloc::AllocError;
use style_write::{push_paragraph_attributes, push_text_attributes};
use value_write::{push_number, push_text, push_unless_empty};

/// Adds the stated properties of a paragraph as an element, where there is one.
fn push_paragraph_properties(out: &mut String, props: &Props) -> Result<(), AllocError>
    ensures { OnOk result (chars (string_bytes out.new) ≡ chars (string_bytes out.old) ++ content_text (properties (codes "style:paragraph-properties") (paragraph_attributes props.now))) }
{
    if !states_paragraph(props) {
        return Ok(());
    }
    push_name(out, "style:paragraph-properties")?;
    push_paragraph_attributes(out, props)?;
    push_empty_end(out)
}

/// Adds the stated properties of text as an element, where there is one.
fn push_text_properties(out: &mut String, props: &Props) -> Result<(), AllocError>
    ensures { OnOk result (chars (string_bytes out.new) ≡ chars (string_bytes out.old) ++ content_text (properties (codes "style:text-properties") (text_attributes props.now))) }
{
    if !states_text(props) {
        return Ok(());
    }
    push_name(out, "style:text-properties")?;
    push_text_attributes(out, props)?;
    push_empty_end(out)
}

/// Adds the elements of stated properties.
pub fn push_properties(out: &mut String, props: &Props) -> Result<(), AllocError>
    ensures { OnOk result (chars (string_bytes out.new) ≡ chars (string_bytes out.old) ++ content_text (property_elements props.now)) }
{
    push_paragraph_properties(out, props)?;
    push_text_properties(out, props)
}

/// Adds what stands behind the attributes of a style with these properties.
fn push_held_properties(out: &mut String, props: &Props) -> Result<(), AllocError>
    ensures { OnOk result (chars (string_bytes out.new) ≡ chars (string_bytes out.old) ++ held_text (codes "style:style") (property_elements props.now)) }
{
    if !states_something(props) {
        return push_empty_end(out);
    }
    push_tag_end(out)?;
    push_properties(out, props)?;
    push_end(out, "style:style")
}

/// What a style is for.
fn family_text(family: Family) -> &'static str
    ensures { chars result.now ≡ named.family_text family }
{
    match family {
        Family::Paragraph => "paragraph",
        Family::Text => "text",
        Family::Section => "section",
    }
}

/// Adds the master page of a style, where it is stated.
fn push_master_stated(out: &mut String, master: &Option<Name>) -> Result<(), AllocError>
    ensures { OnOk result (chars (string_bytes out.new) ≡ chars (string_bytes out.old) ++ flat_map attr_text (where_stated (codes "style:master-page-name") (λ name. name) master.now)) }
{
    match master {
        None => Ok(()),
        Some(name) => push_text(out, "style:master-page-name", name.get()),
    }
}

/// Adds the outline level of a style, where it has one.
fn push_outline_attribute(out: &mut String, level: u8) -> Result<(), AllocError>
    ensures { OnOk result (chars (string_bytes out.new) ≡ chars (string_bytes out.old) ++ flat_map attr_text (outline_attribute level)) }
{
    if level == 0 {
        return Ok(());
    }
    push_number(out, "style:default-outline-level", level as u32)
}

/// Adds the attributes of a style.
fn push_style_attributes(out: &mut String, style: &Style) -> Result<(), AllocError>
    ensures { OnOk result (chars (string_bytes out.new) ≡ chars (string_bytes out.old) ++ flat_map attr_text (style_attributes style.now)) }
{
    push_text(out, "style:name", style.name.get())?;
    push_text(out, "style:family", family_text(style.family))?;
    push_unless_empty(out, "style:parent-style-name", style.parent.get())?;
    push_unless_empty(out, "style:next-style-name", style.next.get())?;
    push_master_stated(out, &style.master)?;
    push_outline_attribute(out, style.outline)
}

/// Adds a style.
pub fn push_style(out: &mut String, style: &Style) -> Result<(), AllocError>
    ensures { OnOk result (chars (string_bytes out.new) ≡ chars (string_bytes out.old) ++ child_text (style_element style.now)) }
{
    push_name(out, "style:style")?;
    push_style_attributes(out, style)?;
    push_held_properties(out, &style.props)
}

/// Adds the default style of paragraphs, where it states something.
pub fn push_default_style(out: &mut String, defaults: &Props) -> Result<(), AllocError>
    ensures { OnOk result (chars (string_bytes out.new) ≡ chars (string_bytes out.old) ++ content_text (default_style defaults.now)) }
{
    if !states_something(defaults) {
        return Ok(());
    }
    push_name(out, "style:default-style")?;
    push_text(out, "style:family", "paragraph")?;
    push_tag_end(out)?;
    push_properties(out, defaults)?;
    push_end(out, "style:default-style")
}
