//! The declarations of an element: what they put in force, and what they shadow.

ghost use Rattle.std.specs.Prelude.{◌≡◌, ℕ, List, ◌++◌, OnOk, IfOk};
ghost use Rattle.load_model.specs.Names.{Binding, declared_by, bindings_within};
ghost use Rattle.expanded_names.specs.Scope.{in_force, Holds};
ghost use Rattle.expanded_names.specs.Shadows.{without_all};

use crate::parts::declared;
use crate::scope::Scope;
use markup_nodes::Attr;
use std::alloc::{AllocError, Global};

/// A prefix with the namespace that it stood for before a declaration, empty where it stood for none.
#[derive(Debug, Drop)]
pub struct Shadow {
    pub prefix: String,
    pub namespace: String,
}

/// Puts in force what the attributes of an element declare, and answers what that shadows. Of two declarations of one
/// prefix the first holds.
pub fn enter(scope: &mut Scope, alloc: Global, attrs: &[Attr]) -> Result<Vec<Shadow>, AllocError>
    ensures bindings { OnOk result ((around : List Binding) → Holds scope.old around → Holds scope.new (bindings_within attrs.now around)) }
    ensures shadows { IfOk result (λ shadows. (prefix : List ℕ) → without_all shadows.items (in_force scope.new) prefix ≡ in_force scope.old prefix) }
{
    let mut shadows = Vec::new(alloc);
    let mut at = attrs.len();
    'declarations: while at > 0 {
        at -= 1;
        declare(scope, alloc, &attrs[at], &mut shadows)?;
    }
    Ok(shadows)
}

/// Puts in force what shadows shadowed, the last one first.
pub fn leave(scope: &mut Scope, alloc: Global, mut shadows: Vec<Shadow>) -> Result<(), AllocError>
    ensures { OnOk result ((prefix : List ℕ) → in_force scope.new prefix ≡ without_all shadows.items (in_force scope.old) prefix) }
{
    'shadows: while let Some(shadow) = shadows.pop() {
        let _ = scope.bind(alloc, shadow.prefix, shadow.namespace)?;
    }
    Ok(())
}

/// Puts in force what an attribute declares, if it declares a prefix, and adds what that shadows.
fn declare(
    scope: &mut Scope,
    alloc: Global,
    attr: &Attr,
    shadows: &mut Vec<Shadow>,
) -> Result<(), AllocError>
    ensures bindings { OnOk result ((around : List Binding) → Holds scope.old around → Holds scope.new (declared_by attr.now ++ around)) }
    ensures shadows { OnOk result ((prefix : List ℕ) → without_all shadows.new.items (in_force scope.new) prefix ≡ without_all shadows.old.items (in_force scope.old) prefix) }
{
    let Some(prefix) = declared(attr.name.get()) else {
        return Ok(());
    };
    let kept = String::from_str(alloc, prefix)?;
    let put = String::from_str(alloc, prefix)?;
    let namespace = String::from_str(alloc, attr.value.get())?;
    let was = scope.bind(alloc, put, namespace)?;
    shadows.push(Shadow {
        prefix: kept,
        namespace: was,
    })?;
    Ok(())
}
