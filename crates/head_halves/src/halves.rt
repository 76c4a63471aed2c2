//! Heads of paragraphs that are split.

ghost use Rattle.std.specs.Prelude.{◌≡◌, ℕ, List, length, option_map, IfOk};
ghost use Rattle.std.specs.Option.{option_copied};
ghost use Rattle.container_rows.specs.Halves.{stated_next, second_head};
ghost use Rattle.doc_model.specs.declared.paragraph.Item.{Item};
ghost use Rattle.doc_model.specs.declared.style.Family.TheVariants as family;
ghost use Rattle.edit_rules.specs.Blocks.{following_place};
ghost use Rattle.style_model.specs.Lineage.{style_named};

use doc_model::{Family, ListPos, Name, ParHead, ParId, Style};
use std::alloc::AllocError;
use style_tree::StyleTree;

/// The head of the new paragraph of this number behind one with this head and so many items, which is split at a place.
pub fn second_head(
    styles: &StyleTree,
    number: u32,
    at: usize,
    head: &ParHead,
    count: usize,
) -> Result<ParHead, AllocError>
    ensures { (items : List Item) → count ≡ length items → IfOk result (λ new. new ≡ second_head styles.now.styles number at head.now items) }
{
    let new = following_head(head, number)?;
    if at != count {
        return Ok(new);
    }
    match stated_next(styles, &head.style) {
        None => Ok(new),
        Some(style) => Ok(ParHead {
            style: style.name.copy()?,
            level: style.outline,
            ..new
        }),
    }
}

// The head with a number and with a list place of a new item.
fn following_head(head: &ParHead, number: u32) -> Result<ParHead, AllocError>
    ensures { IfOk result (λ new. new ≡ record head.now { id = record { 0 = number }; list = option_map following_place head.now.list }) }
{
    let list = match &head.list {
        Some(place) => Some(following_place(place)?),
        None => None,
    };
    Ok(ParHead {
        id: ParId(number),
        list,
        ..head.copy()?
    })
}

// The list place behind another.
fn following_place(place: &ListPos) -> Result<ListPos, AllocError>
    ensures { IfOk result (λ new. new ≡ following_place place.now) }
{
    Ok(ListPos {
        item: true,
        fresh: false,
        ..place.copy()?
    })
}

// The style that a paragraph style states to be the next one, if it states one.
fn stated_next<'a>(styles: &'a StyleTree, name: &Name) -> Option<&'a Style>
    ensures { option_copied result ≡ stated_next styles.now.styles name.now }
{
    match style_named(styles, name) {
        None => None,
        Some(style) => style_named(styles, &style.next),
    }
}

// The paragraph style of a name.
fn style_named<'a>(styles: &'a StyleTree, name: &Name) -> Option<&'a Style>
    ensures { option_copied result ≡ style_named styles.now.styles family.Paragraph name.now }
{
    match styles.place_of(Family::Paragraph, name) {
        None => None,
        Some(place) => Some(styles.get(place)),
    }
}
