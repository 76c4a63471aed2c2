//! Levels of list styles and of the outline.

ghost use Rattle.std.specs.Prelude.{◌≡◌, ◌++◌, [], ◌∷◌, chars, string_bytes, codes, decimal, OnOk};
ghost use Rattle.std.specs.List.{flat_map};
ghost use Rattle.sheet_write.specs.Sheets.{outline_level};
ghost use Rattle.tree_text.specs.Writing.{attr_text, child_text};
ghost use Rattle.written_model.specs.Elements.{attribute, empty_element};
ghost use Rattle.written_model.specs.Styles.{number_attributes, level_element};

use doc_model::{LevelNumber, LevelWhat, ListLevel};
use element_text::{push_empty_end, push_name};
use std::alloc::AllocError;
use value_write::{format_text, push_number, push_text};

/// Adds an attribute with one character.
fn push_character(out: &mut String, name: &str, character: char) -> Result<(), AllocError>
    ensures { OnOk result (chars (string_bytes out.new) ≡ chars (string_bytes out.old) ++ flat_map attr_text (attribute (chars name.now) (character ∷ []) ∷ [])) }
{
    let mut text = String::new(*out.allocator());
    text.push(character)?;
    push_text(out, name, text.as_str())
}

/// Adds the number of a level as an attribute.
fn push_level_number(out: &mut String, name: &str, level: LevelNumber) -> Result<(), AllocError>
    ensures { OnOk result (chars (string_bytes out.new) ≡ chars (string_bytes out.old) ++ flat_map attr_text (attribute (chars name.now) (decimal level) ∷ [])) }
{
    push_number(out, name, level.get() as u32)
}

/// Adds a level that has a bullet.
fn push_bullet(out: &mut String, level: LevelNumber, bullet: char) -> Result<(), AllocError>
    ensures { OnOk result (chars (string_bytes out.new) ≡ chars (string_bytes out.old)
        ++ child_text (empty_element (codes "text:list-level-style-bullet") (attribute (codes "text:level") (decimal level) ∷ attribute (codes "text:bullet-char") (bullet ∷ []) ∷ []))) }
{
    push_name(out, "text:list-level-style-bullet")?;
    push_level_number(out, "text:level", level)?;
    push_character(out, "text:bullet-char", bullet)?;
    push_empty_end(out)
}

/// Adds the attributes of a level that numbers, and nothing for one that has a bullet.
fn push_number_attributes(out: &mut String, level: &ListLevel) -> Result<(), AllocError>
    ensures { OnOk result (chars (string_bytes out.new) ≡ chars (string_bytes out.old) ++ flat_map attr_text (number_attributes level.now level.now.what)) }
{
    match &level.what {
        LevelWhat::Bullet(_) => Ok(()),
        LevelWhat::Number {
            format,
            prefix,
            suffix,
            start,
            display,
        } => {
            push_level_number(out, "text:level", level.level)?;
            push_text(out, "style:num-format", format_text(*format))?;
            push_text(out, "style:num-prefix", prefix.get())?;
            push_text(out, "style:num-suffix", suffix.get())?;
            push_number(out, "text:start-value", *start as u32)?;
            push_level_number(out, "text:display-levels", *display)
        }
    }
}

/// Adds a level that numbers as an element of this name.
fn push_numbering(out: &mut String, name: &str, level: &ListLevel) -> Result<(), AllocError>
    ensures { OnOk result (chars (string_bytes out.new) ≡ chars (string_bytes out.old) ++ child_text (empty_element (chars name.now) (number_attributes level.now level.now.what))) }
{
    push_name(out, name)?;
    push_number_attributes(out, level)?;
    push_empty_end(out)
}

/// Adds a level of the outline.
pub(crate) fn push_outline_level(out: &mut String, level: &ListLevel) -> Result<(), AllocError>
    ensures { OnOk result (chars (string_bytes out.new) ≡ chars (string_bytes out.old) ++ child_text (outline_level level.now)) }
{
    push_numbering(out, "text:outline-level-style", level)
}

/// Adds a level of a list style.
pub(crate) fn push_level(out: &mut String, level: &ListLevel) -> Result<(), AllocError>
    ensures { OnOk result (chars (string_bytes out.new) ≡ chars (string_bytes out.old) ++ child_text (level_element level.now)) }
{
    match &level.what {
        LevelWhat::Bullet(bullet) => push_bullet(out, level.level, *bullet),
        LevelWhat::Number { .. } => push_numbering(out, "text:list-level-style-number", level),
    }
}
