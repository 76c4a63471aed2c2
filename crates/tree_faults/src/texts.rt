//! The body and its text.
ghost use Rattle.std.specs.Prelude.{◌≡◌, ◌&&◌, ◌++◌, ◌∷◌, [], not, List, ℕ, map, option_to_list, IfOk, OnOk};
ghost use Rattle.std.specs.List.{flat_map, list_any};
ghost use Rattle.load_model.specs.declared.element.Element.{Element as Node};
ghost use Rattle.load_model.specs.declared.names.Tag.TheVariants as tag;
ghost use Rattle.load_model.specs.Left as left;
ghost use Rattle.load_model.specs.Left.{children};
ghost use Rattle.load_model.specs.Loaded.{body_of};
ghost use Rattle.load_model.specs.Offences.{place_if, place_of, places_without_text, further};
ghost use Rattle.tree_faults.specs.Texts.{Goes, has_text};

use element_parts::{first, is};
use load_model::{Element, Tag};
use markup_nodes::Turn;
use std::alloc::{AllocError, Global};

/// Where no body has a text, and where a second body or text is.
pub fn misplaced_texts(alloc: Global, root: &Element) -> Result<Vec<u32>, AllocError>
    ensures { IfOk result (λ places. places.items ≡ places_without_text root.now) }
{
    let mut places = Vec::new(alloc);
    push_missing(&mut places, root)?;
    push_further(&mut places, Tag::Body, root)?;
    push_texts(&mut places, root)?;
    Ok(places)
}

// Adds the place of a root of whose bodies none has a text.
fn push_missing(places: &mut Vec<u32>, root: &Element) -> Result<(), AllocError>
    ensures { OnOk result (places.new.items ≡ places.old.items ++ place_if (not (has_text (children root.now))) (place_of root.now)) }
{
    if has_text(root.nodes.turns()) {
        return Ok(());
    }
    places.push(root.place)?;
    Ok(())
}

// Adds the places of further texts in the body that is read.
fn push_texts(places: &mut Vec<u32>, root: &Element) -> Result<(), AllocError>
    ensures { OnOk result (places.new.items ≡ places.old.items ++ flat_map (λ body. map place_of (further tag.Text (children body))) (option_to_list (body_of root.now))) }
{
    match first(Tag::Body, root) {
        Some(body) => push_further(places, Tag::Text, body),
        None => Ok(()),
    }
}

// Whether one of the bodies among elements has a text.
fn has_text(turns: &[Turn<Element>]) -> bool
    ensures { result ≡ list_any (λ turn. left.is tag.Body turn.elem && list_any (left.is tag.Text) (children turn.elem)) turns.now }
{
    'turns: for turn in turns {
        if is_body_with_text(&turn.elem) {
            return true;
        }
    }
    false
}

// Whether an element is a body that has a text.
fn is_body_with_text(element: &Element) -> bool
    ensures { result ≡ (left.is tag.Body element.now && list_any (left.is tag.Text) (children element.now)) }
{
    if !is(Tag::Body, element) {
        return false;
    }
    holds_text(element)
}

// Whether an element holds a text.
fn holds_text(element: &Element) -> bool
    ensures { result ≡ list_any (left.is tag.Text) (children element.now) }
{
    match first(Tag::Text, element) {
        Some(_text) => true,
        None => false,
    }
}

// Adds the places of the elements of a tag that an element holds, behind the first of them.
#[tactic(auto, using(element_parts::proofs::Inner::elems_of_turns))]
fn push_further(places: &mut Vec<u32>, wanted: Tag, element: &Element) -> Result<(), AllocError>
    ensures { OnOk result (places.new.items ≡ places.old.items ++ map place_of (further wanted (children element.now))) }
{
    push_further_turns(places, wanted, element.nodes.turns())
}

// Adds the places of those among elements with the characters behind them.
fn push_further_turns(
    places: &mut Vec<u32>,
    wanted: Tag,
    turns: &[Turn<Element>],
) -> Result<(), AllocError>
    ensures { OnOk result (places.new.items ≡ places.old.items ++ map place_of (further wanted (map (λ turn. turn.elem) turns.now))) }
{
    let mut met = false;
    'turns: for turn in turns {
        met = push_one(places, wanted, met, &turn.elem)?;
    }
    Ok(())
}

// Adds the place of an element, if it is of the tag and one was met before, and answers whether one is met by now.
fn push_one(
    places: &mut Vec<u32>,
    wanted: Tag,
    met: bool,
    element: &Element,
) -> Result<bool, AllocError>
    ensures { IfOk result (λ now_met. (elements : List Node) (old : List ℕ) → Goes wanted elements old places.old.items met → Goes wanted (elements ++ element.now ∷ []) old places.new.items now_met) }
{
    if !is(wanted, element) {
        return Ok(met);
    }
    if !met {
        return Ok(true);
    }
    places.push(element.place)?;
    Ok(true)
}
