//! List styles and the outline.

ghost use Rattle.std.specs.Prelude.{◌≡◌, ◌++◌, chars, string_bytes, codes, map, OnOk};
ghost use Rattle.sheet_write.specs.Held.{held_text};
ghost use Rattle.sheet_write.specs.Sheets.{outline_level};
ghost use Rattle.tree_text.specs.Writing.{child_text, content_text};
ghost use Rattle.written_model.specs.Styles.{level_element, list_style_element, outline_style};

use crate::ends::{push_part_end, push_part_start};
use crate::levels::{push_level, push_outline_level};
use doc_model::{ListLevel, ListStyle};
use element_text::{push_empty_end, push_end, push_name, push_tag_end};
use std::alloc::AllocError;
use value_write::push_text;

/// Adds the levels of a list style.
fn push_levels(out: &mut String, levels: &[ListLevel]) -> Result<(), AllocError>
    ensures { OnOk result (chars (string_bytes out.new) ≡ chars (string_bytes out.old) ++ content_text (map level_element levels.now)) }
{
    let mut left = levels;
    'levels: while let [level, after @ ..] = left {
        push_level(out, level)?;
        left = after;
    }
    Ok(())
}

/// Adds what stands behind the attributes of a list style with these levels.
fn push_held_levels(out: &mut String, levels: &[ListLevel]) -> Result<(), AllocError>
    ensures { OnOk result (chars (string_bytes out.new) ≡ chars (string_bytes out.old) ++ held_text (codes "text:list-style") (map level_element levels.now)) }
{
    if levels.is_empty() {
        return push_empty_end(out);
    }
    push_tag_end(out)?;
    push_levels(out, levels)?;
    push_end(out, "text:list-style")
}

/// Adds a list style.
pub fn push_list_style(out: &mut String, list: &ListStyle) -> Result<(), AllocError>
    ensures { OnOk result (chars (string_bytes out.new) ≡ chars (string_bytes out.old) ++ child_text (list_style_element list.now)) }
{
    push_name(out, "text:list-style")?;
    push_text(out, "style:name", list.name.get())?;
    push_held_levels(out, list.levels.get())
}

/// Adds the levels of the outline.
fn push_outline_levels(out: &mut String, levels: &[ListLevel]) -> Result<(), AllocError>
    ensures { OnOk result (chars (string_bytes out.new) ≡ chars (string_bytes out.old) ++ content_text (map outline_level levels.now)) }
{
    let mut left = levels;
    'levels: while let [level, after @ ..] = left {
        push_outline_level(out, level)?;
        left = after;
    }
    Ok(())
}

/// Adds the outline style, where it has a level.
pub fn push_outline(out: &mut String, outline: &ListStyle) -> Result<(), AllocError>
    ensures { OnOk result (chars (string_bytes out.new) ≡ chars (string_bytes out.old) ++ content_text (outline_style outline.now)) }
{
    let levels = outline.levels.get();
    let holds = !levels.is_empty();
    push_part_start(out, "text:outline-style", holds)?;
    push_outline_levels(out, levels)?;
    push_part_end(out, "text:outline-style", holds)
}
