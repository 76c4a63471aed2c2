//! A tree by what its names mean.

ghost use Rattle.std.specs.Prelude.{◌≡◌, ℕ, List, [], ◌∷◌, map, chars, if◌then◌else◌, None, OnOk, IfOk};
ghost use Rattle.load_model.specs.Names.{Binding, element_name, resolved_attribute, resolved_in, resolved, has_bad_names, places_of_bad_names};
ghost use Rattle.load_model.specs.Names as names;
ghost use Rattle.expanded_names.specs.Scope.{in_force, Holds};
ghost use Rattle.expanded_names.specs.Places.{first_place};

use crate::equal::has_bad_names;
use crate::names::{attribute_name, element_name, key_of, tag_of};
use crate::scope::Scope;
use crate::shadows::{enter, leave};
use load_model::{Attribute, Attributes, Element, Key, Tag};
use markup_nodes::{Attr, Elem, Nodes, Turn};
use std::alloc::{AllocError, Global};

/// A tree by what its names mean.
#[derive(Debug, Drop)]
pub struct Resolved {
    /// The root element.
    pub root: Element,
    /// The place of the first element whose names go against the rules of namespaces, if there is one.
    pub bad_names: Option<u32>,
}

/// Resolves the names of a tree (Namespaces in XML 1.0), which is used up. No text of it is copied but the declarations.
pub fn resolve(alloc: Global, root: Elem) -> Result<Resolved, AllocError>
    ensures root { IfOk result (λ read. read.root ≡ resolved root) }
    ensures bad { IfOk result (λ read. read.bad_names ≡ first_place None (places_of_bad_names root [])) }
{
    let mut scope = Scope::new(alloc);
    let mut bad_names = None;
    let root = resolve_in(alloc, &mut scope, &mut bad_names, root)?;
    Ok(Resolved { root, bad_names })
}

/// Resolves an element where these prefixes are in force, and keeps the first place of bad names.
fn resolve_in(
    alloc: Global,
    scope: &mut Scope,
    bad: &mut Option<u32>,
    elem: Elem,
) -> Result<Element, AllocError>
    ensures element { IfOk result (λ read. (around : List Binding) → Holds scope.old around → read ≡ resolved_in elem around) }
    ensures bad { OnOk result ((around : List Binding) → Holds scope.old around → bad.new ≡ first_place bad.old (places_of_bad_names elem around)) }
    ensures scope { OnOk result ((prefix : List ℕ) → in_force scope.new prefix ≡ in_force scope.old prefix) }
{
    let Elem {
        place,
        name,
        attrs,
        nodes,
    } = elem;
    let shadows = enter(scope, alloc, attrs.get())?;
    note_bad_names(alloc, scope, bad, place, name.get(), attrs.get())?;
    let tag = tag_in(scope, name.get());
    let attributes = attributes_in(alloc, scope, attrs.into_vec())?;
    let (first, turns) = nodes.into_parts();
    let mut read = Vec::with_capacity(alloc, turns.len())?;
    'turns: for turn in turns {
        let elem = resolve_in(alloc, scope, bad, turn.elem)?;
        read.push(Turn {
            elem,
            after: turn.after,
        })?;
    }
    leave(scope, alloc, shadows)?;
    Ok(Element {
        place,
        tag,
        attributes,
        nodes: Nodes::from_parts(first, read),
    })
}

/// Keeps the place of an element whose names are bad, where none is kept yet.
fn note_bad_names(
    alloc: Global,
    scope: &Scope,
    bad: &mut Option<u32>,
    place: u32,
    name: &str,
    attrs: &[Attr],
) -> Result<(), AllocError>
    ensures { OnOk result ((bindings : List Binding) → Holds scope.now bindings → bad.new ≡ first_place bad.old (if names.has_bad_names (chars name.now) attrs.now bindings then place ∷ [] else [])) }
{
    if has_bad_names(alloc, scope, name, attrs)? {
        note(bad, place);
    }
    Ok(())
}

/// Keeps a place, where none is kept yet.
fn note(bad: &mut Option<u32>, place: u32)
    ensures { bad.new ≡ first_place bad.old (place ∷ []) }
{
    if bad.is_none() {
        *bad = Some(place);
    }
}

/// What an element of this name is.
fn tag_in(scope: &Scope, name: &str) -> Tag
    ensures { (bindings : List Binding) → Holds scope.now bindings → result ≡ names.tag_of (names.element_name (chars name.now) bindings) }
{
    match element_name(scope, name) {
        Some((namespace, local_name)) => tag_of(namespace, local_name),
        None => Tag::Other,
    }
}

/// What an attribute of this name is.
fn key_in(scope: &Scope, name: &str) -> Key
    ensures { (bindings : List Binding) → Holds scope.now bindings → result ≡ names.key_of (names.attribute_name (chars name.now) bindings) }
{
    match attribute_name(scope, name) {
        Some((namespace, local_name)) => key_of(namespace, local_name),
        None => Key::Other,
    }
}

/// The attributes of an element, resolved.
fn attributes_in(alloc: Global, scope: &Scope, attrs: Vec<Attr>) -> Result<Attributes, AllocError>
    ensures { IfOk result (λ read. (bindings : List Binding) → Holds scope.now bindings → read ≡ map (resolved_attribute bindings) attrs.items) }
{
    let mut read = Vec::with_capacity(alloc, attrs.len())?;
    'attributes: for attr in attrs {
        let key = key_in(scope, attr.name.get());
        read.push(Attribute {
            key,
            text: attr.value,
        })?;
    }
    Ok(Attributes::from_vec(read))
}
