//! The masters that are kept.
ghost use Rattle.std.specs.Prelude.{◌≡◌, ◌++◌, ◌∷◌, [], List, map, option_to_list, IfOk};
ghost use Rattle.load_model.specs.declared.element.Element.{Element};
ghost use Rattle.load_model.specs.declared.names.Tag.TheVariants as tag;
ghost use Rattle.load_model.specs.Left as left;
ghost use Rattle.load_model.specs.Left.{children};
ghost use Rattle.load_model.specs.Styles as styles;
ghost use Rattle.element_parts.specs.Shown.{shown};
ghost use Rattle.sheet_names.specs.Known.{Knows};
ghost use Rattle.sheet_names.specs.Sheets.{IsSheet};
ghost use Rattle.head_read.specs.Masters.{AreMasters, KeptAre, part_left};

use crate::headers::read_head;
use crate::master::{add_master, other_elements, own_attributes};
use doc_model::{List, Master};
use element_parts::{LeftOut, attributes_out, first};
use load_model::{Element, Tag};
use sheet_names::{Names, Sheet};
use sheet_values::children_left;
use std::alloc::{AllocError, Global};

/// Masters, with what is left out in the part that holds them.
#[derive(Debug, Drop)]
pub struct ReadMasters {
    /// The masters.
    pub masters: List<Master>,
    /// What is left out.
    pub left: LeftOut,
    /// The places of the paragraphs of their headers and footers that have too many items.
    pub too_long: Vec<u32>,
}

/// The masters of a tree, by what is read of its parts.
pub fn read_masters(
    alloc: Global,
    root: &Element,
    sheet: &Sheet<'_>,
) -> Result<ReadMasters, AllocError>
    ensures { IfOk result (λ read. IsSheet sheet.now root.now → AreMasters read root.now) }
{
    let kept = sheet.masters.as_slice();
    let ReadMasters {
        masters,
        left,
        too_long,
    } = read_kept(alloc, &sheet.names, kept)?;
    Ok(ReadMasters {
        masters,
        left: part_left(kept.len(), root).both(left),
        too_long,
    })
}

// What is left out in the part of masters, of which so many are kept, if it is there.
fn part_left(kept: usize, root: &Element) -> LeftOut
    ensures { result ≡ shown (left.all_of (map (part_left kept) (option_to_list (left.first tag.MasterStyles (children root.now))))) }
{
    match first(Tag::MasterStyles, root) {
        Some(part) => {
            let own = attributes_out(&[], part).both(children_left(kept, part));
            LeftOut::nothing().both(own)
        }
        None => LeftOut::nothing(),
    }
}

// The masters of the elements that are kept, where these names can be referred to.
fn read_kept(alloc: Global, names: &Names, kept: &[&Element]) -> Result<ReadMasters, AllocError>
    ensures { IfOk result (λ read. (known : styles.Names) → Knows names.now known → KeptAre read known (map (λ one. one.now) kept.now)) }
{
    let mut read = ReadMasters {
        masters: List::new(alloc),
        left: LeftOut::nothing(),
        too_long: Vec::new(alloc),
    };
    'kept: for element in kept {
        read = with_master(alloc, names, read, element)?;
    }
    Ok(read)
}

// One more master, if the element has a name.
fn with_master(
    alloc: Global,
    names: &Names,
    read: ReadMasters,
    element: &Element,
) -> Result<ReadMasters, AllocError>
    ensures { IfOk result (λ more. (known : styles.Names) → Knows names.now known → (before : List Element) → KeptAre read known before → KeptAre more known (before ++ element.now ∷ [])) }
{
    let ReadMasters {
        mut masters,
        left,
        mut too_long,
    } = read;
    let mut header = read_head(alloc, names, Tag::Header, element)?;
    let mut footer = read_head(alloc, names, Tag::Footer, element)?;
    too_long.append(&mut header.too_long)?;
    too_long.append(&mut footer.too_long)?;
    add_master(
        alloc,
        &mut masters,
        names,
        element,
        header.pars,
        footer.pars,
    )?;
    let own = LeftOut::nothing()
        .both(own_attributes(names, element))
        .both(other_elements(element))
        .both(header.left.both(footer.left));
    Ok(ReadMasters {
        masters,
        left: left.both(own),
        too_long,
    })
}
