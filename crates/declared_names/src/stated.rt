//! Declarations as they are stated.
ghost use Rattle.std.specs.Prelude.{◌++◌, ◌∷◌, [], List, map, OnOk, IfOk};
ghost use Rattle.declared_names.specs.Kept.{Shown, Keeps, stated_of};

use doc_model::Name;
use element_parts::{LeftOut, NameSet};
use std::alloc::{AllocError, Global};

/// A declaration of a name.
#[derive(Debug, Clone, Copy)]
pub struct Stated<'a> {
    /// The place of its element.
    pub place: u32,
    /// The name.
    pub name: &'a str,
    /// What is left out in its element, if it is kept.
    pub left: LeftOut,
}

/// Declarations that are kept: the first of each name, and their names in the same order.
#[derive(Drop)]
pub(crate) struct Kept<'a> {
    pub(crate) kept: Vec<Stated<'a>>,
    pub(crate) names: NameSet,
}

/// The first declaration of each name.
pub(crate) fn first_stated<'a>(alloc: Global, stated: &[Stated<'a>]) -> Result<Kept<'a>, AllocError>
    ensures { IfOk result (λ kept. Keeps (map stated_of stated.now) kept) }
{
    let mut kept = Kept {
        kept: Vec::new(alloc),
        names: NameSet::new(alloc),
    };
    'stated: for one in stated {
        keep(alloc, &mut kept, *one)?;
    }
    Ok(kept)
}

// Keeps one more declaration, where its name is new.
fn keep<'a>(alloc: Global, kept: &mut Kept<'a>, one: Stated<'a>) -> Result<(), AllocError>
    ensures { OnOk result ((before : List Shown) → Keeps before kept.old → Keeps (before ++ stated_of one.entry ∷ []) kept.new) }
{
    if kept.names.add(alloc, one.name)? {
        kept.kept.push(one)?;
    }
    Ok(())
}
