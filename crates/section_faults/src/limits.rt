//! The limit of sections.
ghost use Rattle.std.specs.Prelude.{◌≡◌, List, map, option_to_list};
ghost use Rattle.doc_model.specs.declared.refusal.Limit.TheVariants as limit;
ghost use Rattle.load_model.specs.Met as model;
ghost use Rattle.load_model.specs.Offences.{beyond};
ghost use Rattle.met_read.specs.Read.{met_of, outlined};
ghost use Rattle.kept_names.specs.Kept.{IsSame};
ghost use Rattle.section_faults.specs.Nested.{AreApart};

use crate::sections::kept_place;
use kept_names::Kept;
use met_read::Met;

/// The place of the first kept section with which there are too many, where no two sections stand at one place.
pub fn section_beyond(kept: &Kept, met: &[Met<'_>]) -> Option<u32>
    ensures { (all : List model.Met) → map met_of met.now ≡ map outlined all → IsSame kept.now (model.kept_of all) → AreApart (model.sections_met all) → option_to_list result ≡ beyond limit.Sections (map (λ section. section.place) (model.kept_sections all)) }
{
    let mut before: usize = 0;
    'met: for one in met {
        if let Some(place) = kept_place(kept, one) {
            if before == 8192 {
                return Some(place);
            }
            before += 1;
        }
    }
    None
}
