//! The canonical bytes of a file's document.
ghost use Rattle.std.specs.Prelude.{◌≤◌, ◌^◌, ℕ, List, length, IfOk, IfErr};
ghost use Rattle.doc_model.specs.declared.report.Report.{Report};
ghost use Rattle.doc_load.specs.Loads.{HasOffence, IsFaultIn};
ghost use Rattle.doc_load.specs.declared.offence.Offence.{Offence};
ghost use Rattle.file_save.specs.Saves.{IsOffenceUnlessMemory, IsSavedUnlessMemory, Saves};

use doc_load::{LoadFault, load};
use doc_model::{Blob, Report};
use doc_write::save;
use std::alloc::Global;

/// A file as it is saved.
#[derive(Drop)]
pub struct Saved {
    /// The canonical bytes of its document.
    pub text: Blob,
    /// What was left out as it was read.
    pub report: Report,
}

/// Loads a file of at most 2^28 bytes, and writes its document: the canonical bytes with the report, or the first offence.
pub fn save_file(alloc: Global, bytes: &[u8]) -> Result<Saved, LoadFault>
    requires { length bytes.now ≤ 2 ^ 28 }
    // The canonical bytes are those of the document that the file is loaded as.
    ensures saved { IfOk result (λ one. Saves bytes.now one.text one.report) }
    // An offence is the first one.
    ensures offence { IfErr result (IsFaultIn bytes.now) }
    // What is loaded is saved, unless memory runs out.
    ensures only { (text : List ℕ) (report : Report) → Saves bytes.now text report → IsSavedUnlessMemory text report result }
    // The first offence is told, unless memory runs out.
    ensures told { (offence : Offence) → HasOffence bytes.now offence → IsOffenceUnlessMemory offence result }
{
    let (doc, report) = match load(alloc, bytes) {
        Ok(loaded) => loaded,
        Err(fault) => return Err(fault),
    };
    match save(alloc, &doc) {
        Ok(text) => Ok(Saved { text, report }),
        Err(_refused) => Err(LoadFault::NoMemory),
    }
}
