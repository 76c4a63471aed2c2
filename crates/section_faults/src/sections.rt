//! Sections among what is met.
ghost use Rattle.std.specs.Prelude.{◌≡◌, if◌then◌else◌, Some, None};
ghost use Rattle.std.specs.Option.{option_map};
ghost use Rattle.met_read.specs.Read.{met_of, section_of};
ghost use Rattle.section_faults.specs.Sections.{section_in, kept_place};

use kept_names::Kept;
use met_read::{Met, MetSection};

/// The section that is met, if it is one.
pub(crate) fn section_in<'a>(one: &Met<'a>) -> Option<MetSection<'a>>
    ensures { option_map section_of result ≡ section_in (met_of one.now) }
{
    match one {
        Met::Section(section) => Some(*section),
        _ => None,
    }
}

/// The place of the section that is met, if it is one that is kept.
pub(crate) fn kept_place(kept: &Kept, one: &Met<'_>) -> Option<u32>
    ensures { result ≡ kept_place kept.now.sections (met_of one.now) }
{
    match one {
        Met::Section(section) => place_if(kept.keeps_section(section.place), section.place),
        _ => None,
    }
}

// A place, where this holds.
fn place_if(holds: bool, place: u32) -> Option<u32>
    ensures { result ≡ (if holds then Some place else None) }
{
    if holds { Some(place) } else { None }
}
