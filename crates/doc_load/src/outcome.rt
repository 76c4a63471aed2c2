//! What a root comes to.
ghost use Rattle.std.specs.Prelude.{◌≡◌, List, IfOk};
ghost use Rattle.load_model.specs.declared.offence.TreeOffence.{TreeOffence};
ghost use Rattle.load_model.specs.Offences.{least};
ghost use Rattle.doc_load.specs.Outcomes.{IsOrdered, all_offences, outcome_of};
ghost use Rattle.doc_load.specs.Parts.{PartsAre, TextIs};

use crate::document::{draft, number};
use crate::faults::first_offence;
use crate::left::report;
use crate::parts::{ReadParts, read_parts};
use crate::text::{ReadText, read_root_text};
use doc_model::{Document, Report};
use first_faults::FirstFault;
use load_model::{Element, TreeOffence};
use sheet_names::sheet_of;
use std::alloc::{AllocError, Global};

/// What a root is loaded as, or its first offence.
#[derive(Drop)]
pub(crate) enum Outcome {
    Loaded(Document, Report),
    Refused(TreeOffence),
}

/// What a root comes to, where there are offences before its own.
pub(crate) fn root_outcome(
    alloc: Global,
    first: FirstFault,
    root: &Element,
) -> Result<Outcome, AllocError>
    requires { IsOrdered root.now }
    ensures { IfOk result (λ outcome. (before : List TreeOffence) → first ≡ least before → outcome ≡ outcome_of root.now (least (all_offences before root.now))) }
{
    let sheet = sheet_of(alloc, root)?;
    let parts = read_parts(alloc, root, &sheet)?;
    let text = read_root_text(alloc, root, &sheet.names)?;
    outcome_of_parts(alloc, first, root, parts, text)
}

// What a root comes to of whose parts and text this is read.
fn outcome_of_parts(
    alloc: Global,
    first: FirstFault,
    root: &Element,
    parts: ReadParts,
    text: ReadText,
) -> Result<Outcome, AllocError>
    requires ordered { IsOrdered root.now }
    requires parts { PartsAre parts root.now }
    requires text { TextIs text root.now }
    ensures { IfOk result (λ outcome. (before : List TreeOffence) → first ≡ least before → outcome ≡ outcome_of root.now (least (all_offences before root.now))) }
{
    let report = report(root, &parts, &text);
    let told = first_offence(alloc, first, root, &parts, &text)?;
    match told {
        Some(offence) => Ok(Outcome::Refused(offence)),
        None => {
            let doc = number(alloc, draft(root, parts, text))?;
            Ok(Outcome::Loaded(doc, report))
        }
    }
}
