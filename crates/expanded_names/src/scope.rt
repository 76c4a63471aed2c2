//! The prefixes that are declared.

ghost use Rattle.std.specs.Prelude.{◌≡◌, ℕ, List, [], chars, string_bytes, if◌then◌else◌, option_map, option_and_then, unwrap_or, None, OnOk, IfOk};
ghost use Rattle.std.specs.Str.{bytes_eq};
ghost use Rattle.load_model.specs.Names.{Binding, bound_namespace, namespace_of};
ghost use Rattle.expanded_names.specs.Scope.{in_force, unless_empty, Holds};

use crate::parts::{XML, can_be_declared, is};
use indexmap::IndexMap;
use std::alloc::{AllocError, Global};
use std::marker::Model;

/// The namespace of the prefix that needs no declaration.
const XML_NAMESPACE: &str = "http://www.w3.org/XML/1998/namespace";

/// Prefixes with the namespaces that they stand for. The empty prefix stands for names without one, and the empty
/// namespace for none. Contracts see the pairs.
#[derive(Drop)]
pub struct Scope {
    bound: IndexMap<String, String>,
}

impl Model for Scope {
    ghost use Rattle.std.specs.Prelude.{ℕ, List, map, chars, string_bytes};

    ghost Value = { List (List ℕ × List ℕ) };

    ghost view = { λ scope. map (λ entry. (chars (string_bytes entry.0), chars (string_bytes entry.1))) scope.bound.entries };
}

impl Scope {
    /// No prefix. It takes no memory.
    pub fn new(alloc: Global) -> Scope
        ensures { result ≡ [] }
    {
        Scope {
            bound: IndexMap::new(alloc),
        }
    }

    /// The namespace of a prefix, if one is in force.
    pub fn find(&self, prefix: &str) -> Option<&str>
        ensures { option_map (λ namespace. chars namespace.now) result ≡ in_force self.now (chars prefix.now) }
    {
        match self.bound.get(prefix) {
            Some(namespace) => unless_empty(namespace.as_str()),
            None => None,
        }
    }

    /// Makes a prefix stand for a namespace, and answers the one that it stood for, empty where it stood for none.
    pub fn bind(
        &mut self,
        alloc: Global,
        prefix: String,
        namespace: String,
    ) -> Result<String, AllocError>
        ensures bound { OnOk result ((key : List ℕ) → in_force self.new key ≡ (if bytes_eq (chars (string_bytes prefix)) key then unless_empty (chars (string_bytes namespace)) else in_force self.old key)) }
        ensures was { IfOk result (λ was. unless_empty (chars (string_bytes was)) ≡ in_force self.old (chars (string_bytes prefix))) }
    {
        let was = self.bound.insert(prefix, namespace)?;
        Ok(text_or_empty(alloc, was))
    }

    /// The namespace of elements without a prefix, empty where there is none.
    pub fn unprefixed(&self) -> &str
        ensures { (bindings : List Binding) → Holds self.now bindings → chars result.now ≡ unwrap_or (bound_namespace None bindings) [] }
    {
        match self.find("") {
            Some(namespace) => namespace,
            None => "",
        }
    }

    /// The namespace of a prefix that stands in a name; 'xml' needs no declaration.
    pub fn namespace(&self, prefix: &str) -> Option<&str>
        ensures { (bindings : List Binding) → Holds self.now bindings → option_map (λ namespace. chars namespace.now) result ≡ namespace_of (chars prefix.now) bindings }
    {
        if is(prefix, XML) {
            return Some(XML_NAMESPACE);
        }
        if can_be_declared(prefix) {
            return self.find(prefix);
        }
        None
    }
}

/// A namespace; the empty one is none.
fn unless_empty(namespace: &str) -> Option<&str>
    ensures { option_map (λ one. chars one.now) result ≡ unless_empty (chars namespace.now) }
{
    if is(namespace, "") {
        return None;
    }
    Some(namespace)
}

/// The text, or the empty one.
fn text_or_empty(alloc: Global, text: Option<String>) -> String
    ensures { unless_empty (chars (string_bytes result)) ≡ option_and_then (λ one. unless_empty (chars (string_bytes one))) text }
{
    match text {
        Some(text) => text,
        None => String::new(alloc),
    }
}
