//! Limits of what the style parts and the part of masters hold.
ghost use Rattle.std.specs.Prelude.{◌≡◌, ℕ, map, slice_get, option_to_list};
ghost use Rattle.std.specs.Option.{option_map};
ghost use Rattle.doc_model.specs.declared.refusal.Limit.TheVariants as limit;
ghost use Rattle.load_model.specs.declared.element.Element.{Element};
ghost use Rattle.load_model.specs.Offences.{place_of, places_beyond};
ghost use Rattle.sheet_names.specs.Sheets.{IsSheet};

use load_model::Element;
use sheet_kept::InPart;
use sheet_names::Sheet;

/// The place of the first style with which there are too many.
#[tactic(none)]
pub fn style_beyond(sheet: &Sheet<'_>) -> Option<u32>
    ensures { (root : Element) → IsSheet sheet.now root → option_to_list result ≡ places_beyond limit.Styles root }
{
    place_in_part(sheet.styles.as_slice(), 16384)
}

/// The place of the first list style with which there are too many.
#[tactic(none)]
pub fn list_beyond(sheet: &Sheet<'_>) -> Option<u32>
    ensures { (root : Element) → IsSheet sheet.now root → option_to_list result ≡ places_beyond limit.ListStyles root }
{
    place_at(sheet.lists.as_slice(), 4096)
}

/// The place of the first page layout with which there are too many.
#[tactic(none)]
pub fn layout_beyond(sheet: &Sheet<'_>) -> Option<u32>
    ensures { (root : Element) → IsSheet sheet.now root → option_to_list result ≡ places_beyond limit.Layouts root }
{
    place_at(sheet.layouts.as_slice(), 1024)
}

/// The place of the first master with which there are too many.
#[tactic(none)]
pub fn master_beyond(sheet: &Sheet<'_>) -> Option<u32>
    ensures { (root : Element) → IsSheet sheet.now root → option_to_list result ≡ places_beyond limit.Masters root }
{
    place_at(sheet.masters.as_slice(), 1024)
}

// The place of the element behind so many, if there is one.
fn place_at(elements: &[&Element], count: usize) -> Option<u32>
    ensures { result ≡ option_map (λ element. place_of element.now) (slice_get elements.now count) }
{
    match elements.get(count) {
        Some(element) => Some(element.place),
        None => None,
    }
}

// The same in a part of the root.
fn place_in_part(held: &[InPart<'_>], count: usize) -> Option<u32>
    ensures { result ≡ option_map (λ one. place_of one.element.now) (slice_get held.now count) }
{
    match held.get(count) {
        Some(one) => Some(one.element.place),
        None => None,
    }
}
