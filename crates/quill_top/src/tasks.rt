//! What words ask for, done up to the text that is put.
ghost use Rattle.std.specs.Prelude.{◌≡◌, ◌≢◌, ◌≤◌, ◌⊎◌, List, length, None, Some, Ok, Err, IfOk, IfErr, MatchResult};
ghost use Rattle.doc_load.specs.declared.offence.Offence.{Offence};
ghost use Rattle.quill_io.specs.Faults.{Rose};
ghost use Rattle.quill_top.specs.Words as model;
ghost use Rattle.quill_top.specs.Words.{texts_of};
ghost use Rattle.quill_top.specs.Tasks.{task_of};
ghost use Rattle.quill_top.specs.declared.words.Task.TheVariants as asked;
ghost use Rattle.quill_top.specs.Outcome.{most_bytes, IsOutcome, IsOutcomeOf, IsSaved};
ghost use Rattle.quill_top.specs.Answer.{Only, IsStop};
ghost use Rattle.quill_top.specs.Ending.{stop_of, Finds, IsTaskStop};
ghost use Rattle.quill_top.specs.Made.{done_of};
ghost use Rattle.quill_top.specs.Stop.{no_memory, refused};

use crate::ending::{Ending, load_ending};
use crate::steps::{fetch_file, load_file, read_file};
use crate::words::{Names, Task, accepted};
use doc_model::Blob;
use file_save::{report_line, save_file};
use quill_io::Shelf;
use script_run::run_script;
use std::alloc::{AllocError, Global};

/// What is put: a text, and the line of a report, if there is one.
#[derive(Drop)]
pub(crate) struct Made {
    pub(crate) text: Blob,
    pub(crate) report: Option<String>,
}

/// What is put for these words, or why there is nothing.
pub(crate) fn prepare<'a, S: Shelf>(
    alloc: Global,
    words: &'a [String],
    shelf: &mut S,
) -> Result<Made, Ending<'a>>
    ensures found { IfOk result
        (λ made. Finds (S.files shelf.old) (λ at. IsOutcome at (texts_of words.now))
        (Ok (done_of made))) }
    ensures stops { IfErr result
        (λ ending. IsStop (S.files shelf.old) (texts_of words.now) (stop_of ending)) }
    ensures usage { MatchResult result (λ _. model.accepted (texts_of words.now) ≢ None)
        (λ ending. model.accepted (texts_of words.now) ≡ None → ending ≡ Ending.Usage) }
    ensures before_output { IfErr result (λ ending. (stop_of ending).status ≢ 6) }
    ensures keeps_files { S.files shelf.new ≡ S.files shelf.old }
    ensures never_falls { S.faults shelf.old ≤ S.faults shelf.new }
    ensures cause { IfErr result (λ ending. (stop_of ending).status ≡ 5
        → Rose (S.faults shelf.old) (S.faults shelf.new)) }
{
    let Some(task) = accepted(words) else {
        return Err(Ending::Usage);
    };
    match perform(alloc, task, shelf) {
        Ok(made) => Ok(made),
        Err(ending) => Err(ending),
    }
}

// What is put for a task.
fn perform<'a, S: Shelf>(alloc: Global, task: Task<'a>, shelf: &mut S) -> Result<Made, Ending<'a>>
    ensures found { IfOk result
        (λ made. Finds (S.files shelf.old) (λ at. IsOutcomeOf at (Some (task_of task.entry)))
        (Ok (done_of made))) }
    ensures stops { IfErr result
        (λ ending. IsTaskStop (S.files shelf.old) (task_of task.entry) (stop_of ending)) }
    ensures before_output { IfErr result (λ ending. (stop_of ending).status ≢ 6) }
    ensures keeps_files { S.files shelf.new ≡ S.files shelf.old }
    ensures never_falls { S.faults shelf.old ≤ S.faults shelf.new }
    ensures cause { IfErr result (λ ending. (stop_of ending).status ≡ 5
        → Rose (S.faults shelf.old) (S.faults shelf.new)) }
{
    match task {
        Task::Run(names) => run(alloc, names, shelf),
        Task::Save(file) => save(alloc, file, shelf),
    }
}

// The text of SCRIPT over the plain document of FILE.
fn run<'a, S: Shelf>(alloc: Global, names: Names<'a>, shelf: &mut S) -> Result<Made, Ending<'a>>
    ensures found { IfOk result
        (λ made. Finds (S.files shelf.old) (λ at. IsOutcomeOf at (Some (task_of (asked.Run names.entry))))
        (Ok (done_of made))) }
    ensures stops { IfErr result
        (λ ending. IsTaskStop (S.files shelf.old) (task_of (asked.Run names.entry)) (stop_of ending)) }
    ensures before_output { IfErr result (λ ending. (stop_of ending).status ≢ 6) }
    ensures keeps_files { S.files shelf.new ≡ S.files shelf.old }
    ensures never_falls { S.faults shelf.old ≤ S.faults shelf.new }
    ensures cause { IfErr result (λ ending. (stop_of ending).status ≡ 5
        → Rose (S.faults shelf.old) (S.faults shelf.new)) }
{
    let doc = match load_file(alloc, names.file, shelf) {
        Ok(doc) => doc,
        Err(ending) => return Err(ending),
    };
    let script = match read_file(alloc, names.script, shelf) {
        Ok(script) => script,
        Err(ending) => return Err(ending),
    };
    match run_script(alloc, doc, script.get()) {
        Ok(text) => Ok(Made {
            text: Blob::from_list(text),
            report: None,
        }),
        Err(AllocError) => Err(Ending::NoMemory),
    }
}

// The canonical bytes of the document of FILE, with the line of its report.
fn save<'a, S: Shelf>(alloc: Global, file: &'a str, shelf: &mut S) -> Result<Made, Ending<'a>>
    ensures found { IfOk result
        (λ made. Finds (S.files shelf.old) (λ at. IsOutcomeOf at (Some (model.Save file.now)))
        (Ok (done_of made))) }
    ensures stops { IfErr result
        (λ ending. IsTaskStop (S.files shelf.old) (model.Save file.now) (stop_of ending)) }
    ensures before_output { IfErr result (λ ending. (stop_of ending).status ≢ 6) }
    ensures keeps_files { S.files shelf.new ≡ S.files shelf.old }
    ensures never_falls { S.faults shelf.old ≤ S.faults shelf.new }
    ensures cause { IfErr result (λ ending. (stop_of ending).status ≡ 5
        → Rose (S.faults shelf.old) (S.faults shelf.new)) }
{
    let bytes = match fetch_file(alloc, file, shelf) {
        Ok(bytes) => bytes,
        Err(ending) => return Err(ending),
    };
    match save_bytes(alloc, &bytes) {
        Ok(made) => Ok(made),
        Err(ending) => Err(ending),
    }
}

// The canonical bytes of the document that bytes are loaded as, with the line of its report.
fn save_bytes<'a>(alloc: Global, bytes: &[u8]) -> Result<Made, Ending<'a>>
    requires { length bytes.now ≤ most_bytes }
    ensures found { IfOk result (λ made. Only (IsSaved bytes.now) (Ok (done_of made))) }
    ensures stops { IfErr result (λ ending. (stop_of ending ≡ no_memory)
        ⊎ (((offence : Offence) × (stop_of ending ≡ refused offence)) × Only (IsSaved bytes.now) (Err (stop_of ending)))) }
{
    let saved = match save_file(alloc, bytes) {
        Ok(saved) => saved,
        Err(fault) => return Err(load_ending(fault)),
    };
    match report_line(alloc, saved.report) {
        Ok(report) => Ok(Made {
            text: saved.text,
            report,
        }),
        Err(AllocError) => Err(Ending::NoMemory),
    }
}
