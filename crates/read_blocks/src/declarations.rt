//! Declarations of names.
ghost use Rattle.std.specs.Prelude.{◌≡◌, ◌-◌, ◌∷◌, ◌++◌, [], Bool, length, map, IfOk, OnOk};
ghost use Rattle.load_model.specs.Blocks as blocks;
ghost use Rattle.load_model.specs.Left as left;
ghost use Rattle.load_model.specs.Left.{attributes_of, children};
ghost use Rattle.element_parts.specs.Shown.{shown};
ghost use Rattle.read_blocks.specs.Adds.{Adds};
ghost use Rattle.read_blocks.specs.NamedInside.{declared_among, declarations_in, with_declarations};
ghost use Rattle.read_blocks.specs.Shown.{shown_declared};

use crate::read::{Declared, ReadBlocks, ReadDeclarations};
use block_parts::{name_from, stated_name};
use doc_model::List;
use element_parts::{LeftOut, attributes_out, is, own_left};
use load_model::{Element, Key, Tag};
use read_values::Reading;
use std::alloc::{AllocError, Global};

/// The rule of a declaration.
const NAME_RULES: &[(Key, Reading)] = &[(Key::TextName, Reading::Name)];

impl ReadBlocks {
    /// Adds the declarations of an element, of sequences or of variables, which stand in elements of a tag.
    pub fn push_declarations(
        &mut self,
        alloc: Global,
        sequences: bool,
        which: Tag,
        element: &Element,
    ) -> Result<(), AllocError>
        ensures { OnOk result ((in_note : Bool) → Adds in_note self.old self.new (with_declarations (declarations_in sequences which element.now))) }
    {
        let declared = declared_in(alloc, which, element)?;
        let left = between(declared.len(), element);
        self.declarations.push(ReadDeclarations {
            sequences,
            declared,
            left,
        })?;
        Ok(())
    }
}

// What is left out between declarations, of which so many are read.
fn between(read: usize, element: &Element) -> LeftOut
    ensures { result ≡ shown (left.both (blocks.left_by [] (attributes_of element.now)) (left.only_elements (length (children element.now) - read))) }
{
    let others = LeftOut::elements(element.nodes.len().saturating_sub(read));
    attributes_out(&[], element).both(others)
}

// The declarations in an element that stand in elements of a tag.
fn declared_in(alloc: Global, which: Tag, element: &Element) -> Result<List<Declared>, AllocError>
    ensures { IfOk result (λ all. all ≡ map shown_declared (declared_among which (children element.now))) }
{
    let mut declared = List::new(alloc);
    'turns: for turn in element.nodes.turns() {
        push_declared(alloc, which, &turn.elem, &mut declared)?;
    }
    Ok(declared)
}

// Adds a declaration, if an element is one with a name.
fn push_declared(
    alloc: Global,
    which: Tag,
    element: &Element,
    declared: &mut List<Declared>,
) -> Result<(), AllocError>
    ensures { OnOk result (declared.new ≡ declared.old ++ map shown_declared (declared_among which (element.now ∷ []))) }
{
    if !is(which, element) {
        return Ok(());
    }
    match stated_name(Key::TextName, element.attributes.get()) {
        Some(text) => {
            let name = name_from(alloc, text)?;
            declared.push(Declared {
                place: element.place,
                name,
                left: own_left(NAME_RULES, element),
            })
        }
        None => Ok(()),
    }
}
