//! The call that is the program, where nothing waits.
ghost use Rattle.std.specs.Prelude.{◌≡◌, ◌≢◌, ℕ, ◌≤◌, ◌⊎◌, ◌↔◌, List, take, None, Ok, Err};
ghost use Rattle.std.specs.Option.{ForSome};
ghost use Rattle.std.specs.Io.KnownBytes.{Appends};
ghost use Rattle.quill_io.specs.Faults.{Rose};
ghost use Rattle.quill_top.specs.Words.{texts_of, accepted};
ghost use Rattle.quill_top.specs.Stop.{Stop};
ghost use Rattle.quill_top.specs.Outcome.{Done, Outcome, IsOutcome};
ghost use Rattle.quill_top.specs.Answer.{Only, IsFault, HasStatus, IsStop, Reports, Tells};

use crate::ending::{Ending, report, tell};
use crate::tasks::prepare;
use quill_io::{Shelf, Sink, SinkFault};
use std::alloc::Global;

/// How a run ends, as the number that the program ends with.
#[derive(Clone, Copy, Debug, PartialEq, Eq)]
pub struct Status(pub u8);

/// Runs a script over a plain document, or writes the document of any file in its canonical bytes.
///
/// The words are `run FILE SCRIPT` or `save FILE`. For a run FILE is fetched and loaded, then SCRIPT is fetched and
/// read, then its commands are answered, and the printed replies are put to `out` by one put. For a save FILE is fetched
/// and loaded, and the canonical bytes are put. The first of these that can't be done ends the run. `diag` takes the line
/// that says so, with its line feed, by one put, or after a save the line that tells how much of FILE was left out, if
/// something was; that this fails changes no status.
///
/// - 0: the whole text was put.
/// - 1: FILE of a run isn't the canonical bytes of a plain document; FILE of a save has an offence, which is named with its place.
/// - 2: the words aren't accepted.
/// - 3: a line of SCRIPT is no command; the first such is named, counted from 1.
/// - 4: FILE, or SCRIPT at its turn, isn't there.
/// - 5: the shelf failed.
/// - 6: `out` failed. This line takes no memory.
/// - 7: there was not enough memory. Nor does this one.
/// - 8: FILE or SCRIPT has more than 268435456 bytes.
pub fn quill_lone<S: Shelf, K: Sink, D: Sink>(
    alloc: Global,
    words: &[String],
    shelf: &mut S,
    out: &mut K,
    diag: &mut D,
) -> Status
    // The status. Where the shelf tells its files, it is that of their one outcome, or 5 or 7.
    ensures only { result.0 ≤ 8 }
    ensures usage { (result.0 ≡ 2) ↔ (accepted (texts_of words.now) ≡ None) }
    ensures known { ForSome (S.files shelf.old) (λ at. IsFault result.0
        ⊎ ((outcome : Outcome) × Only (IsOutcome at (texts_of words.now)) outcome
        × HasStatus outcome result.0)) }
    ensures shelf_fault { result.0 ≡ 5 → Rose (S.faults shelf.old) (S.faults shelf.new) }
    ensures output_fault { result.0 ≡ 6 → Rose (K.faults out.old) (K.faults out.new) }

    // What is put to `out`: the text of the outcome, or a prefix of it with status 6. With status 0 the line of its report, if
    // there is one, is put to `diag`.
    ensures done { result.0 ≡ 0 → (done : Done)
        × ForSome (S.files shelf.old) (λ at. Only (IsOutcome at (texts_of words.now)) (Ok done))
        × Appends (K.held out.old) (K.held out.new) done.text
        × Reports done.report (D.held diag.old) (D.held diag.new) (D.faults diag.old) (D.faults diag.new) }
    ensures partial { result.0 ≡ 6 → (done : Done)
        × ForSome (S.files shelf.old) (λ at. Only (IsOutcome at (texts_of words.now)) (Ok done))
        × ((taken : ℕ) × Appends (K.held out.old) (K.held out.new) (take taken done.text)) }
    ensures untouched { result.0 ≢ 0 → result.0 ≢ 6 → K.held out.new ≡ K.held out.old }

    // With another status the line of the stop is put to `diag`.
    ensures line { result.0 ≢ 0 → (stop : Stop) × (result.0 ≡ stop.status)
        × IsStop (S.files shelf.old) (texts_of words.now) stop
        × Tells stop.line
        (D.held diag.old) (D.held diag.new) (D.faults diag.old) (D.faults diag.new) }

    // What stays.
    ensures keeps_files { S.files shelf.new ≡ S.files shelf.old }
    ensures shelf_never_falls { S.faults shelf.old ≤ S.faults shelf.new }
    ensures out_never_falls { K.faults out.old ≤ K.faults out.new }
    ensures diag_never_falls { D.faults diag.old ≤ D.faults diag.new }
{
    let made = match prepare(alloc, words, shelf) {
        Ok(made) => made,
        Err(ending) => return tell(alloc, ending, diag),
    };
    match out.put(made.text.get()) {
        Ok(()) => {
            report(diag, &made.report);
            Status(0)
        }
        Err(SinkFault::Failed) => tell(alloc, Ending::OutputFault, diag),
    }
}
