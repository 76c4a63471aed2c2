//! The steps that read a file.
ghost use Rattle.std.specs.Prelude.{◌≡◌, ℕ, ◌⊎◌, ◌≤◌, Ok, Err, length, IfOk, IfErr};
ghost use Rattle.std.specs.List.{AllByRecursion as Each};
ghost use Rattle.desk_model.specs.declared.script.Numbered.{Numbered};
ghost use Rattle.doc_model.specs.Plain.{IsPlain};
ghost use Rattle.script_run.specs.PlainScript.{IsPlainScriptCommand};
ghost use Rattle.quill_io.specs.Faults.{Rose};
ghost use Rattle.quill_top.specs.Stop.{not_plain, bad_line};
ghost use Rattle.quill_top.specs.Outcome.{most_bytes, IsFetched, IsLoaded, IsRead};
ghost use Rattle.quill_top.specs.Ending.{stop_of, IsFaultAt, IsUnread, Finds};

use crate::ending::Ending;
use desk_model::Numbered;
use doc_model::{Document, List};
use fodt_read::{LoadFault, load_plain};
use quill_io::{FetchFault, Fetched, Shelf};
use script_lang::{ScriptFault, read_script};
use std::alloc::Global;

/// How many bytes a file may have.
const MOST_BYTES: u32 = 268_435_456;

/// Fetches the file of this name.
pub(crate) fn fetch_file<'a, S: Shelf>(
    alloc: Global,
    name: &'a str,
    shelf: &mut S,
) -> Result<Vec<u8>, Ending<'a>>
    ensures found { IfOk result (λ bytes. Finds (S.files shelf.old) (λ at. IsFetched at name.now)
        (Ok bytes.items)) }
    ensures limit { IfOk result (λ bytes. length bytes.items ≤ most_bytes) }
    ensures stops { IfErr result (λ ending. IsFaultAt name.now (stop_of ending)
        ⊎ (IsUnread name.now (stop_of ending)
        × Finds (S.files shelf.old) (λ at. IsFetched at name.now) (Err (stop_of ending)))) }
    ensures keeps_files { S.files shelf.new ≡ S.files shelf.old }
    ensures never_falls { S.faults shelf.old ≤ S.faults shelf.new }
    ensures cause { IfErr result (λ ending. (stop_of ending).status ≡ 5
        → Rose (S.faults shelf.old) (S.faults shelf.new)) }
{
    let mut bytes = Vec::new(alloc);
    match shelf.fetch(name, MOST_BYTES, &mut bytes) {
        Ok(Fetched::Bytes) => Ok(bytes),
        Ok(Fetched::Absent) => Err(Ending::Absent(name)),
        Err(FetchFault::TooLong(_)) => Err(Ending::TooLong(name)),
        Err(FetchFault::Failed) => Err(Ending::ShelfFault(name)),
        Err(FetchFault::NoMemory) => Err(Ending::NoMemory),
    }
}

/// Loads the plain document in the file of this name.
pub(crate) fn load_file<'a, S: Shelf>(
    alloc: Global,
    name: &'a str,
    shelf: &mut S,
) -> Result<Document, Ending<'a>>
    ensures found { IfOk result
        (λ doc. Finds (S.files shelf.old) (λ at. IsLoaded at name.now) (Ok doc)) }
    ensures plain { IfOk result IsPlain }
    ensures stops { IfErr result (λ ending. IsFaultAt name.now (stop_of ending)
        ⊎ ((IsUnread name.now (stop_of ending) ⊎ (stop_of ending ≡ not_plain))
        × Finds (S.files shelf.old) (λ at. IsLoaded at name.now) (Err (stop_of ending)))) }
    ensures keeps_files { S.files shelf.new ≡ S.files shelf.old }
    ensures never_falls { S.faults shelf.old ≤ S.faults shelf.new }
    ensures cause { IfErr result (λ ending. (stop_of ending).status ≡ 5
        → Rose (S.faults shelf.old) (S.faults shelf.new)) }
{
    let bytes = match fetch_file(alloc, name, shelf) {
        Ok(bytes) => bytes,
        Err(ending) => return Err(ending),
    };
    match load_plain(alloc, &bytes) {
        Ok(doc) => Ok(doc),
        Err(LoadFault::NotPlain) => Err(Ending::NotPlain),
        Err(LoadFault::NoMemory) => Err(Ending::NoMemory),
    }
}

/// Reads the script in the file of this name.
pub(crate) fn read_file<'a, S: Shelf>(
    alloc: Global,
    name: &'a str,
    shelf: &mut S,
) -> Result<List<Numbered>, Ending<'a>>
    ensures found { IfOk result
        (λ script. Finds (S.files shelf.old) (λ at. IsRead at name.now) (Ok script)) }
    ensures plain { IfOk result
        (λ script. Each (λ (numbered : Numbered). IsPlainScriptCommand numbered.command) script) }
    ensures stops { IfErr result (λ ending. IsFaultAt name.now (stop_of ending)
        ⊎ ((IsUnread name.now (stop_of ending)
        ⊎ ((number : ℕ) × (stop_of ending ≡ bad_line number)))
        × Finds (S.files shelf.old) (λ at. IsRead at name.now) (Err (stop_of ending)))) }
    ensures keeps_files { S.files shelf.new ≡ S.files shelf.old }
    ensures never_falls { S.faults shelf.old ≤ S.faults shelf.new }
    ensures cause { IfErr result (λ ending. (stop_of ending).status ≡ 5
        → Rose (S.faults shelf.old) (S.faults shelf.new)) }
{
    let bytes = match fetch_file(alloc, name, shelf) {
        Ok(bytes) => bytes,
        Err(ending) => return Err(ending),
    };
    match read_script(alloc, &bytes) {
        Ok(script) => Ok(script),
        Err(ScriptFault::BadLine(number)) => Err(Ending::BadLine(number)),
        Err(ScriptFault::NoMemory) => Err(Ending::NoMemory),
    }
}
