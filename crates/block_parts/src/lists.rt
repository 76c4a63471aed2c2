//! The lists round blocks.
ghost use Rattle.std.specs.Prelude.{◌≡◌, ◌+◌, ◌==◌, ◌&&◌, ◌∷◌, [], false, not, min, chars, IfOk};
ghost use Rattle.std.specs.Option.{option_map};
ghost use Rattle.load_model.specs.declared.names.Key.TheVariants as key;
ghost use Rattle.load_model.specs.Blocks as blocks;
ghost use Rattle.load_model.specs.Blocks.{list_place};
ghost use Rattle.load_model.specs.Left.{attributes_of};
ghost use Rattle.load_model.specs.Loaded.{at_most_ten};
ghost use Rattle.load_model.specs.Styles.{reference};
ghost use Rattle.load_model.specs.Values as values;
ghost use Rattle.load_model.specs.Values.{rule, stated_or};
ghost use Rattle.element_parts.specs.Shown.{shown};
ghost use Rattle.block_parts.specs.Lists.{StandsIn, with_list};

use crate::rules::{Reference, left_beside};
use crate::texts::{name_from, stated_style};
use doc_model::ListPos;
use element_parts::LeftOut;
use load_model::{Attribute, Element, Key};
use read_values::{Reading, truth, value_of};
use sheet_names::Names;
use std::alloc::{AllocError, Global};

/// What stands round blocks: how many lists, of which at most ten count, the style of the innermost that states one, and
/// whether it is a note.
#[derive(Debug, Clone, Copy)]
pub struct Lists<'a> {
    /// How many lists, at most ten.
    pub level: u8,
    /// The list style, or the empty text.
    pub style: &'a str,
    /// Whether it is a note.
    pub in_note: bool,
}

/// The other rule of a list.
const LIST_RULES: &[(Key, Reading)] = &[(Key::ContinueNumbering, Reading::Truth)];

impl<'a> Lists<'a> {
    /// Outside of all lists.
    pub fn outside(in_note: bool) -> Lists<'a>
        ensures { StandsIn result (record { level = 0; style = []; in_note = in_note }) }
    {
        Lists {
            level: 0,
            style: "",
            in_note,
        }
    }

    /// What stands round the blocks of a list that stands here.
    pub fn within(self, names: &Names, list: &'a Element) -> Lists<'a>
        ensures { (at : blocks.Lists) → StandsIn self.entry at → StandsIn result (with_list names.now.lists (attributes_of list.now) at) }
    {
        Lists {
            level: one_more(self.level),
            style: inner_style(names, self.style, list.attributes.get()),
            in_note: self.in_note,
        }
    }

    /// The place in a list of a paragraph that stands here, if any list is round it.
    pub fn place(self, alloc: Global) -> Result<Option<ListPos>, AllocError>
        ensures { IfOk result (λ place. (at : blocks.Lists) → StandsIn self.entry at → place ≡ option_map at_most_ten (list_place at)) }
    {
        if self.level == 0 {
            return Ok(None);
        }
        Ok(Some(ListPos {
            style: name_from(alloc, self.style)?,
            level: self.level,
            item: false,
            fresh: false,
        }))
    }

    /// Whether a list that stands here begins counting: an outermost one that doesn't say that it goes on.
    pub fn begins(self, list: &Element) -> bool
        ensures { (at : blocks.Lists) → StandsIn self.entry at → result ≡ (at.level == 0 && not (stated_or key.ContinueNumbering values.truth false (attributes_of list.now))) }
    {
        self.level == 0 && !goes_on(list.attributes.get())
    }
}

// One level more, of which at most ten count.
fn one_more(level: u8) -> u8
    ensures { result ≡ min (level + 1) 10 }
{
    if level < 10 {
        return level + 1;
    }
    10
}

// The style of a list within another.
fn inner_style<'a>(names: &Names, around: &'a str, attributes: &'a [Attribute]) -> &'a str
    ensures { chars result.now ≡ stated_or key.StyleName (reference names.now.lists) (chars around.now) attributes.now }
{
    match stated_style(names, Reference::List, attributes) {
        Some(style) => style,
        None => around,
    }
}

// Whether a list says that it goes on with the numbers of the one before.
fn goes_on(attributes: &[Attribute]) -> bool
    ensures { result ≡ stated_or key.ContinueNumbering values.truth false attributes.now }
{
    match value_of(Key::ContinueNumbering, attributes) {
        Some(text) => truth(text).unwrap_or(false),
        None => false,
    }
}

/// The attributes of a list that are left out.
pub fn list_left(names: &Names, list: &Element) -> LeftOut
    ensures { result ≡ shown (blocks.left_by (rule key.StyleName (reference names.now.lists) ∷ rule key.ContinueNumbering values.truth ∷ []) (attributes_of list.now)) }
{
    left_beside(names, Reference::List, LIST_RULES, list)
}
