//! Expanded names: a namespace, which is empty where there is none, and a local name.

ghost use Rattle.std.specs.Prelude.{◌≡◌, ◌||◌, if◌then◌else◌, List, chars, option_map, Some};
ghost use Rattle.std.specs.Str.{bytes_eq};
ghost use Rattle.load_model.specs.Names.{Binding, element_name, attribute_name, is_declaration, tag_of, key_of, office, draw};
ghost use Rattle.expanded_names.specs.Scope.{Holds, element_namespace, attribute_namespace};

use crate::known::{key_named, tag_named};
use crate::parts::{XMLNS, cut, is};
use crate::scope::Scope;
use load_model::{DRAW, Key, OFFICE, Tag};

/// The namespace of declarations.
const DECLARATIONS: &str = "http://www.w3.org/2000/xmlns/";

/// The expanded name of an element, or nothing where its prefix is undeclared.
pub fn element_name<'a>(scope: &'a Scope, name: &'a str) -> Option<(&'a str, &'a str)>
    ensures { (bindings : List Binding) → Holds scope.now bindings → option_map (λ one. record { namespace = chars one.0.now; local_name = chars one.1.now }) result ≡ element_name (chars name.now) bindings }
{
    let (prefix, local_name) = cut(name);
    match element_namespace(scope, prefix) {
        Some(namespace) => Some((namespace, local_name)),
        None => None,
    }
}

/// The namespace of an element's prefix, or of an element without one.
fn element_namespace<'a>(scope: &'a Scope, prefix: Option<&str>) -> Option<&'a str>
    ensures { (bindings : List Binding) → Holds scope.now bindings → option_map (λ one. chars one.now) result ≡ element_namespace (option_map (λ one. chars one.now) prefix.entry) bindings }
{
    match prefix {
        Some(prefix) => scope.namespace(prefix),
        None => Some(scope.unprefixed()),
    }
}

/// The expanded name of an attribute, or nothing where its prefix is undeclared.
pub fn attribute_name<'a>(scope: &'a Scope, name: &'a str) -> Option<(&'a str, &'a str)>
    ensures { (bindings : List Binding) → Holds scope.now bindings → option_map (λ one. record { namespace = chars one.0.now; local_name = chars one.1.now }) result ≡ attribute_name (chars name.now) bindings }
{
    let (prefix, local_name) = cut(name);
    if is_declaration(name) {
        return Some((DECLARATIONS, local_name));
    }
    match attribute_namespace(scope, prefix) {
        Some(namespace) => Some((namespace, local_name)),
        None => None,
    }
}

/// The namespace of an attribute's prefix; one without a prefix has none.
fn attribute_namespace<'a>(scope: &'a Scope, prefix: Option<&str>) -> Option<&'a str>
    ensures { (bindings : List Binding) → Holds scope.now bindings → option_map (λ one. chars one.now) result ≡ attribute_namespace (option_map (λ one. chars one.now) prefix.entry) bindings }
{
    match prefix {
        Some(prefix) => scope.namespace(prefix),
        None => Some(""),
    }
}

/// Whether an attribute's name is that of a declaration.
fn is_declaration(name: &str) -> bool
    ensures { result ≡ is_declaration (chars name.now) }
{
    if is(name, XMLNS) {
        return true;
    }
    let (prefix, _) = cut(name);
    match prefix {
        Some(prefix) => is(prefix, XMLNS),
        None => false,
    }
}

/// What an element of this namespace and local name is.
pub fn tag_of(namespace: &str, local_name: &str) -> Tag
    ensures { result ≡ tag_of (Some (record { namespace = chars namespace.now; local_name = chars local_name.now })) }
{
    match tag_named(namespace, local_name) {
        Some(tag) => tag,
        None => unknown_tag(namespace),
    }
}

/// What an element is that has no rule of its own.
#[tactic(auto, unfolding(load_model::specs::Names::office, load_model::specs::Names::draw))]
fn unknown_tag(namespace: &str) -> Tag
    ensures { result ≡ (if bytes_eq (chars namespace.now) office || bytes_eq (chars namespace.now) draw then Tag.Foreign else Tag.Other) }
{
    if is(namespace, OFFICE) {
        return Tag::Foreign;
    }
    if is(namespace, DRAW) {
        return Tag::Foreign;
    }
    Tag::Other
}

/// What an attribute of this namespace and local name is.
pub fn key_of(namespace: &str, local_name: &str) -> Key
    ensures { result ≡ key_of (Some (record { namespace = chars namespace.now; local_name = chars local_name.now })) }
{
    if is(namespace, DECLARATIONS) {
        return Key::Uncounted;
    }
    match key_named(namespace, local_name) {
        Some(key) => key,
        None => Key::Other,
    }
}
