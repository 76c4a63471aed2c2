//! Elements that have a name, the first of each.
ghost use Rattle.std.specs.Prelude.{◌≡◌, ◌++◌, ◌∷◌, [], List, map, OnOk, IfOk};
ghost use Rattle.load_model.specs.declared.element.Element.{Element};
ghost use Rattle.sheet_kept.specs.Kept.{Keeps};

use crate::held::InPart;
use element_parts::{NameSet, is, name_of};
use load_model::{Element, Tag};
use std::alloc::{AllocError, Global};

/// Elements of a tag that are kept, in their order, with their names in the same order.
#[derive(Drop)]
pub struct Named<'a> {
    /// The elements.
    pub elements: Vec<&'a Element>,
    /// Their names.
    pub names: NameSet,
}

/// Those of a tag that are kept: the first of each name.
pub fn first_named<'a>(
    alloc: Global,
    tag: Tag,
    held: &[InPart<'a>],
) -> Result<Named<'a>, AllocError>
    ensures { IfOk result (λ kept. Keeps tag (map (λ one. one.element.now) held.now) kept) }
{
    let mut kept = Named {
        elements: Vec::new(alloc),
        names: NameSet::new(alloc),
    };
    'held: for one in held {
        keep(alloc, tag, &mut kept, one.element)?;
    }
    Ok(kept)
}

// Keeps one more element, where it is of the tag and has a name that is new.
fn keep<'a>(
    alloc: Global,
    tag: Tag,
    kept: &mut Named<'a>,
    element: &'a Element,
) -> Result<(), AllocError>
    ensures { OnOk result ((elements : List Element) → Keeps tag elements kept.old → Keeps tag (elements ++ element.now ∷ []) kept.new) }
{
    if !is(tag, element) {
        return Ok(());
    }
    match name_of(element) {
        Some(name) => {
            if kept.names.add(alloc, name)? {
                kept.elements.push(element)?;
            }
        }
        None => {}
    }
    Ok(())
}
