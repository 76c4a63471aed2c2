//! Names that go against the rules of namespaces.

ghost use Rattle.std.specs.Prelude.{◌≡◌, List, chars, filter_map, is_none, IfOk};
ghost use Rattle.std.specs.List.{list_any};
ghost use Rattle.load_model.specs.Names.{Binding, has_twice};
ghost use Rattle.load_model.specs.Names as names;
ghost use Rattle.expanded_names.specs.Scope.{Holds};

use crate::names::{attribute_name, element_name};
use crate::parts::as_text;
use crate::scope::Scope;
use indexmap::IndexSet;
use markup_nodes::Attr;
use std::alloc::{AllocError, Global};

/// Whether the names of an element go against the rules: a prefix is undeclared, or two attributes have one expanded name.
pub fn has_bad_names(
    alloc: Global,
    scope: &Scope,
    name: &str,
    attrs: &[Attr],
) -> Result<bool, AllocError>
    ensures { IfOk result (λ bad. (bindings : List Binding) → Holds scope.now bindings → bad ≡ names.has_bad_names (chars name.now) attrs.now bindings) }
{
    if element_name(scope, name).is_none() {
        return Ok(true);
    }
    if has_undeclared(scope, attrs) {
        return Ok(true);
    }
    has_equal_names(alloc, scope, attrs)
}

/// Whether an attribute has an undeclared prefix.
fn has_undeclared(scope: &Scope, attrs: &[Attr]) -> bool
    ensures { (bindings : List Binding) → Holds scope.now bindings → result ≡ list_any (λ attr. is_none (names.attribute_name attr.name bindings)) attrs.now }
{
    for attr in attrs {
        if attribute_name(scope, attr.name.get()).is_none() {
            return true;
        }
    }
    false
}

/// Whether two attributes have one expanded name.
fn has_equal_names(alloc: Global, scope: &Scope, attrs: &[Attr]) -> Result<bool, AllocError>
    ensures { IfOk result (λ equal. (bindings : List Binding) → Holds scope.now bindings → equal ≡ has_twice (filter_map (λ attr. names.attribute_name attr.name bindings) attrs.now)) }
{
    let mut seen: IndexSet<(&str, &str)> = IndexSet::new(alloc);
    for attr in attrs {
        match attribute_name(scope, attr.name.get()) {
            Some((namespace, local_name)) => {
                if !seen.insert((as_text(namespace), as_text(local_name)))? {
                    return Ok(true);
                }
            }
            None => {}
        }
    }
    Ok(false)
}
