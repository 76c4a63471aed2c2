//! The styles that are kept.
ghost use Rattle.std.specs.Prelude.{◌≡◌, ◌++◌, ◌∷◌, [], List, map, OnOk, IfOk};
ghost use Rattle.load_model.specs.Styles as styles;
ghost use Rattle.sheet_kept.specs.Held.{seen};
ghost use Rattle.sheet_names.specs.Keys.{KeepsStyles};

use crate::family::style_key;
use crate::style_names::StyleNames;
use element_parts::is;
use load_model::Tag;
use sheet_kept::InPart;
use std::alloc::{AllocError, Global};

/// The styles that are kept, in the order of the file, with their names.
#[derive(Drop)]
pub struct KeptStyles<'a> {
    /// The styles.
    pub styles: Vec<InPart<'a>>,
    /// Their names.
    pub names: StyleNames,
}

/// The styles that are kept of what the style parts hold: the first one of each family and name.
pub fn first_styles<'a>(alloc: Global, held: &[InPart<'a>]) -> Result<KeptStyles<'a>, AllocError>
    ensures { IfOk result (λ kept. KeepsStyles (map seen held.now) kept) }
{
    let mut kept = KeptStyles {
        styles: Vec::new(alloc),
        names: StyleNames::new(alloc),
    };
    'held: for one in held {
        keep_style(alloc, &mut kept, *one)?;
    }
    Ok(kept)
}

// Keeps one more element, where it is a style whose family and name are new.
fn keep_style<'a>(
    alloc: Global,
    kept: &mut KeptStyles<'a>,
    one: InPart<'a>,
) -> Result<(), AllocError>
    ensures { OnOk result ((held : List styles.InPart) → KeepsStyles held kept.old → KeepsStyles (held ++ seen one.entry ∷ []) kept.new) }
{
    if !is(Tag::Style, one.element) {
        return Ok(());
    }
    match style_key(one.element) {
        Some(key) => {
            if kept.names.add(alloc, key.family, key.name)? {
                kept.styles.push(one)?;
            }
        }
        None => {}
    }
    Ok(())
}
