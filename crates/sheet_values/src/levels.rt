//! The levels of list styles and of the outline.
ghost use Rattle.std.specs.Prelude.{◌≡◌, ◌&&◌, ◌++◌, ◌∷◌, [], List, is_some, map, OnOk, IfOk};
ghost use Rattle.std.specs.List.{list_any};
ghost use Rattle.load_model.specs.Left as left;
ghost use Rattle.load_model.specs.Styles as styles;
ghost use Rattle.load_model.specs.Values as values;
ghost use Rattle.load_model.specs.Values.{stated};
ghost use Rattle.doc_model.specs.Ranges.{IsLevelNumber};
ghost use Rattle.load_model.specs.declared.element.Element.{Element};
ghost use Rattle.load_model.specs.declared.names.Key.TheVariants as key;
ghost use Rattle.load_model.specs.declared.names.Tag.TheVariants as tag;
ghost use Rattle.read_values.specs.Readings.{rule_of};
ghost use Rattle.element_parts.specs.Shown.{shown};
ghost use Rattle.sheet_values.specs.LevelKinds.{is_of, has_level, kept_among, levels_at, levels_among, level_numbers, bullet_level, number_level, level_left, LevelsAre};

use crate::parts::children_left;
use crate::stated::{
    first_level, stated_character, stated_format, stated_level, stated_start, stated_text,
};
use doc_model::{LevelNumber, LevelWhat, List, ListLevel};
use element_parts::{LeftOut, is, own_left};
use load_model::{Attribute, Element, Key, Tag};
use markup_nodes::Turn;
use read_values::Reading;
use std::alloc::{AllocError, Global};

/// What levels are of.
#[derive(Debug, Clone, Copy, PartialEq, Eq)]
pub enum LevelsOf {
    /// A list style.
    ListStyle,
    /// The outline.
    Outline,
}

/// Levels in ascending order, with what is left out in the element that holds them, but for its attributes.
#[derive(Debug, Drop)]
pub struct ReadLevels {
    /// The levels.
    pub levels: List<ListLevel>,
    /// What is left out.
    pub left: LeftOut,
}

/// The numbers of levels.
const NUMBERS: &[u8] = &[1, 2, 3, 4, 5, 6, 7, 8, 9, 10];

const BULLET_RULES: &[(Key, Reading)] = &[
    (Key::Level, Reading::Level),
    (Key::BulletChar, Reading::OneCharacter),
];

const NUMBER_RULES: &[(Key, Reading)] = &[
    (Key::Level, Reading::Level),
    (Key::NumberFormat, Reading::NumberFormat),
    (Key::NumberPrefix, Reading::AnyText),
    (Key::NumberSuffix, Reading::AnyText),
    (Key::StartValue, Reading::Number(0, 65535)),
    (Key::DisplayLevels, Reading::Level),
];

/// The levels that an element holds.
pub fn read_levels(alloc: Global, of: LevelsOf, element: &Element) -> Result<ReadLevels, AllocError>
    ensures { IfOk result (λ read. LevelsAre read of element.now) }
{
    let kept = kept_levels(alloc, of, element.nodes.turns())?;
    let kept = kept.as_slice();
    let levels = levels_of(alloc, kept)?;
    let left = children_left(kept.len(), element).both(own_lefts(kept));
    Ok(ReadLevels { levels, left })
}

// Whether an element is a level that can be read: a bullet needs its character.
fn is_level(of: LevelsOf, element: &Element) -> bool
    ensures { result ≡ is_of of element.now }
{
    match of {
        LevelsOf::ListStyle => is(Tag::NumberLevel, element) || is_bullet(element),
        LevelsOf::Outline => is(Tag::OutlineLevel, element),
    }
}

// Whether an element is a bullet with its character.
fn is_bullet(element: &Element) -> bool
    ensures { result ≡ (left.is tag.BulletLevel element.now && is_some (stated key.BulletChar values.one_character (left.attributes_of element.now))) }
{
    is(Tag::BulletLevel, element)
        && stated_character(Key::BulletChar, element.attributes.get()).is_some()
}

// The number of a level.
fn level_of(element: &Element) -> Option<LevelNumber>
    ensures { result ≡ styles.level_of element.now }
{
    stated_level(Key::Level, element.attributes.get())
}

// Whether an element has a level's number.
fn has_level(level: LevelNumber, element: &Element) -> bool
    ensures { result ≡ has_level level element.now }
{
    match level_of(element) {
        Some(given) => given.get() == level.get(),
        None => false,
    }
}

// Whether a level's number is that of one of these, of which there are at most ten.
fn is_kept(level: LevelNumber, kept: &[&Element]) -> bool
    ensures { result ≡ list_any (λ element. has_level level element.now) kept.now }
{
    'kept: for element in kept {
        if has_level(level, element) {
            return true;
        }
    }
    false
}

// The levels that are kept among elements with the characters behind them: the first of each number.
fn kept_levels(
    alloc: Global,
    of: LevelsOf,
    turns: &[Turn<Element>],
) -> Result<Vec<&Element>, AllocError>
    ensures { IfOk result (λ kept. map (λ element. element.now) kept.items ≡ kept_among of (map (λ turn. turn.elem) turns.now)) }
{
    let mut kept = Vec::new(alloc);
    'turns: for turn in turns {
        keep_level(of, &mut kept, &turn.elem)?;
    }
    Ok(kept)
}

// Keeps one more element, where it is a level with a new number.
fn keep_level<'a>(
    of: LevelsOf,
    kept: &mut Vec<&'a Element>,
    element: &'a Element,
) -> Result<(), AllocError>
    ensures { OnOk result ((elements : List Element) → map (λ one. one.now) kept.old.items ≡ kept_among of elements → map (λ one. one.now) kept.new.items ≡ kept_among of (elements ++ element.now ∷ [])) }
{
    if !is_level(of, element) {
        return Ok(());
    }
    match level_of(element) {
        Some(level) => {
            if !is_kept(level, kept.as_slice()) {
                kept.push(element)?;
            }
        }
        None => {}
    }
    Ok(())
}

// The levels that elements are, in ascending order.
fn levels_of(alloc: Global, kept: &[&Element]) -> Result<List<ListLevel>, AllocError>
    ensures { IfOk result (λ levels. levels ≡ levels_among level_numbers (map (λ element. element.now) kept.now)) }
{
    let mut levels = List::new(alloc);
    'numbers: for number in NUMBERS {
        add_number(alloc, &mut levels, *number, kept)?;
    }
    Ok(levels)
}

// Adds the level of a number from 1 to 10, if it is there.
fn add_number(
    alloc: Global,
    levels: &mut List<ListLevel>,
    number: u8,
    kept: &[&Element],
) -> Result<(), AllocError>
    requires { IsLevelNumber number }
    ensures { OnOk result (levels.new ≡ levels.old ++ levels_at number (map (λ element. element.now) kept.now)) }
{
    match LevelNumber::new(number) {
        Some(level) => add_level(alloc, levels, level, kept),
        None => unreachable!(),
    }
}

// Adds the level of a number, if it is there.
fn add_level(
    alloc: Global,
    levels: &mut List<ListLevel>,
    level: LevelNumber,
    kept: &[&Element],
) -> Result<(), AllocError>
    ensures { OnOk result (levels.new ≡ levels.old ++ levels_at level (map (λ element. element.now) kept.now)) }
{
    'kept: for element in kept {
        if has_level(level, element) {
            levels.push(level_with(alloc, level, element)?)?;
        }
    }
    Ok(())
}

// What a level is, of this number.
fn level_with(alloc: Global, level: LevelNumber, element: &Element) -> Result<ListLevel, AllocError>
    ensures { IfOk result (λ one. one ≡ styles.level_with level element.now) }
{
    let attributes = element.attributes.get();
    if is(Tag::BulletLevel, element) {
        return Ok(bullet(level, attributes));
    }
    numbered(alloc, level, attributes)
}

// A level with a bullet.
fn bullet(level: LevelNumber, attributes: &[Attribute]) -> ListLevel
    ensures { result ≡ bullet_level level attributes.now }
{
    let bullet = match stated_character(Key::BulletChar, attributes) {
        Some(bullet) => bullet,
        None => '\0',
    };
    ListLevel {
        level,
        what: LevelWhat::Bullet(bullet),
    }
}

// A level with numbers.
fn numbered(
    alloc: Global,
    level: LevelNumber,
    attributes: &[Attribute],
) -> Result<ListLevel, AllocError>
    ensures { IfOk result (λ one. one ≡ number_level level attributes.now) }
{
    let prefix = stated_text(alloc, Key::NumberPrefix, attributes)?;
    let suffix = stated_text(alloc, Key::NumberSuffix, attributes)?;
    let display = match stated_level(Key::DisplayLevels, attributes) {
        Some(display) => display,
        None => first_level(),
    };
    Ok(ListLevel {
        level,
        what: LevelWhat::Number {
            format: stated_format(Key::NumberFormat, attributes),
            prefix,
            suffix,
            start: stated_start(Key::StartValue, attributes),
            display,
        },
    })
}

// The rules of a level.
fn level_rules(element: &Element) -> &'static [(Key, Reading)]
    ensures { map rule_of result.now ≡ styles.level_rules element.now }
{
    if is(Tag::BulletLevel, element) {
        BULLET_RULES
    } else {
        NUMBER_RULES
    }
}

// What is left out in levels.
fn own_lefts(kept: &[&Element]) -> LeftOut
    ensures { result ≡ shown (left.all_of (map level_left (map (λ element. element.now) kept.now))) }
{
    let mut total = LeftOut::nothing();
    'kept: for element in kept {
        total = total.both(own_left(level_rules(element), element));
    }
    total
}
