//! The parts of the root that are read, and what they hold.
ghost use Rattle.std.specs.Prelude.{◌≡◌, ◌++◌, ◌||◌, map, OnOk, IfOk};
ghost use Rattle.std.specs.List.{list_any};
ghost use Rattle.load_model.specs.declared.names.Tag.TheVariants as tag;
ghost use Rattle.load_model.specs.Left.{is, is_same_tag, tag_of};
ghost use Rattle.load_model.specs.Styles as styles;
ghost use Rattle.sheet_kept.specs.Held.{seen, held_by, held_turn, parts_of};

use element_parts::{is, is_same_tag};
use load_model::{Element, Tag};
use markup_nodes::Turn;
use std::alloc::{AllocError, Global};

/// An element that a part of the root holds.
#[derive(Clone, Copy)]
pub struct InPart<'a> {
    /// Whether the part is that of automatic styles.
    pub auto: bool,
    /// The element.
    pub element: &'a Element,
}

/// The style parts that are read, in the order of the file: the first one of each kind.
#[tactic(auto, using(element_parts::proofs::Inner::elems_of_turns))]
pub fn style_parts(alloc: Global, root: &Element) -> Result<Vec<&Element>, AllocError>
    ensures { IfOk result (λ parts. map (λ part. part.now) parts.items ≡ styles.style_parts root.now) }
{
    parts_among(alloc, root.nodes.turns())
}

// The style parts that are read among elements with the characters behind them.
fn parts_among(alloc: Global, turns: &[Turn<Element>]) -> Result<Vec<&Element>, AllocError>
    ensures { IfOk result (λ parts. map (λ part. part.now) parts.items ≡ parts_of (map (λ turn. turn.elem) turns.now)) }
{
    let mut parts = Vec::new(alloc);
    'turns: for turn in turns {
        if is_style_part(&turn.elem) && !has_tag(turn.elem.tag, parts.as_slice()) {
            parts.push(&turn.elem)?;
        }
    }
    Ok(parts)
}

// Whether an element is a style part.
fn is_style_part(element: &Element) -> bool
    ensures { result ≡ (is tag.CommonStyles element.now || is tag.AutomaticStyles element.now) }
{
    is(Tag::CommonStyles, element) || is(Tag::AutomaticStyles, element)
}

// Whether an element has a tag, among the parts that are read: at most two.
fn has_tag(tag: Tag, parts: &[&Element]) -> bool
    ensures { result ≡ list_any (λ part. is_same_tag (tag_of part.now) tag) parts.now }
{
    'parts: for part in parts {
        if is(tag, part) {
            return true;
        }
    }
    false
}

/// What the style parts hold, in the order of the file.
pub fn in_parts<'a>(alloc: Global, root: &'a Element) -> Result<Vec<InPart<'a>>, AllocError>
    ensures { IfOk result (λ held. map seen held.items ≡ styles.in_parts root.now) }
{
    let parts = style_parts(alloc, root)?;
    let mut held = Vec::new(alloc);
    'parts: for part in parts.as_slice() {
        add_held(&mut held, part)?;
    }
    Ok(held)
}

/// What a part holds.
pub fn held_by<'a>(alloc: Global, part: &'a Element) -> Result<Vec<InPart<'a>>, AllocError>
    ensures { IfOk result (λ held. map seen held.items ≡ held_by part.now) }
{
    let mut held = Vec::with_capacity(alloc, part.nodes.len())?;
    add_held(&mut held, part)?;
    Ok(held)
}

// Adds what a part holds.
#[tactic(auto, using(crate::proofs::PartLemmas::held_turns))]
fn add_held<'a>(held: &mut Vec<InPart<'a>>, part: &'a Element) -> Result<(), AllocError>
    ensures { OnOk result (map seen held.new.items ≡ map seen held.old.items ++ held_by part.now) }
{
    add_turns(held, is(Tag::AutomaticStyles, part), part.nodes.turns())
}

// Adds elements of a part, with the characters behind them.
fn add_turns<'a>(
    held: &mut Vec<InPart<'a>>,
    is_auto: bool,
    turns: &'a [Turn<Element>],
) -> Result<(), AllocError>
    ensures { OnOk result (map seen held.new.items ≡ map seen held.old.items ++ map (held_turn is_auto) turns.now) }
{
    'turns: for turn in turns {
        held.push(InPart {
            auto: is_auto,
            element: &turn.elem,
        })?;
    }
    Ok(())
}
