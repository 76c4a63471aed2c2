//! The places of styles that are their own ancestors.
ghost use Rattle.std.specs.Prelude.{◌≡◌, ◌∷◌, ◌++◌, [], List, map, IfOk, OnOk};
ghost use Rattle.std.specs.List.{flat_map};
ghost use Rattle.doc_model.specs.declared.style.Style.{Style};
ghost use Rattle.load_model.specs.declared.element.Element.{Element};
ghost use Rattle.load_model.specs.Offences.{places_of_loops};
ghost use Rattle.load_model.specs.Styles as model;
ghost use Rattle.sheet_kept.specs.Held.{seen};
ghost use Rattle.sheet_names.specs.Sheets.{IsSheet};
ghost use Rattle.style_loops.specs.Told.{Tells};
ghost use Rattle.loop_faults.specs.Looped.{is_looped, looped_at};

use doc_model::Style;
use sheet_kept::InPart;
use sheet_names::{Sheet, style_key};
use std::alloc::{AllocError, Global};
use style_loops::StyleLoops;

/// The places of the styles that are their own ancestors, where these are the styles of the file.
pub fn loop_places(
    alloc: Global,
    sheet: &Sheet<'_>,
    styles: &[Style],
) -> Result<Vec<u32>, AllocError>
    ensures { IfOk result (λ places. (root : Element) → IsSheet sheet.now root → styles.now ≡ model.styles (model.names_of root) root → places.items ≡ places_of_loops root) }
{
    let kept = sheet.styles.as_slice();
    let loops = StyleLoops::new(alloc, styles)?;
    places_among(alloc, &loops, kept)
}

// The places of those among styles that are their own ancestors.
fn places_among(
    alloc: Global,
    loops: &StyleLoops<'_>,
    kept: &[InPart<'_>],
) -> Result<Vec<u32>, AllocError>
    ensures { IfOk result (λ places. (styles : List Style) → Tells loops.now styles → places.items ≡ flat_map (looped_at styles) (map seen kept.now)) }
{
    let mut places = Vec::new(alloc);
    'kept: for one in kept {
        if is_looped(loops, *one) {
            places.push(one.element.place)?;
        }
    }
    Ok(places)
}

// Whether a style is its own ancestor.
fn is_looped(loops: &StyleLoops<'_>, one: InPart<'_>) -> bool
    ensures { (styles : List Style) → Tells loops.now styles → result ≡ is_looped styles (seen one.entry) }
{
    match style_key(one.element) {
        Some(key) => loops.has(key.family, key.name),
        None => false,
    }
}
