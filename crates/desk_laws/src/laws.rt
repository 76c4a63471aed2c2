//! The laws of the desk. Their functions do nothing.
ghost use Rattle.std.specs.Prelude.{◌≡◌, ◌≢◌, ℕ, ◌+◌, ◌*◌, ◌≤◌, ◌<◌, true, false, List, ◌∷◌, [], replicate, Some};
ghost use Rattle.std.specs.List.{AllByRecursion as Each};
ghost use Rattle.doc_model.specs.declared.document.Document.{Document};
ghost use Rattle.doc_model.specs.declared.edit.Group.{Group};
ghost use Rattle.edit_model.specs.Past.{Entry};
ghost use Rattle.line_model.specs.declared.job.Job.{Job};
ghost use Rattle.desk_model.specs.declared.command.Command.{Command};
ghost use Rattle.round_model.specs.Stops.{paragraph_count, stop_at};
ghost use Rattle.round_model.specs.Idle.{Idle, Live, live_at, keeps, is_form_stop_of};
ghost use Rattle.round_model.specs.Reached.{IsReached};
ghost use Rattle.desk_model.specs.Desk.{State, present, start_at, last_version};
ghost use Rattle.desk_model.specs.Runs.{turn, settle};
ghost use Rattle.desk_laws.specs.Steps.{reply_to, after, after_all, ShowSame};
ghost use Rattle.desk_laws.specs.Changes.{is_change, is_onward, change_count, leaves_all, HasNoChange, has_paragraph, are_outdated_by};
ghost use Rattle.desk_laws.specs.Promises.{AreStampsPast, present_stamp, are_kept, KeepsLastRound};

use desk_model::{Command, Reply};

/// A reply other than that of a change, of a stop that was passed and of lines that were entered leaves the whole
/// state as it is.
pub fn refusals_leave_all()
    ensures { (state : State) (command : Command) → leaves_all (reply_to state command) ≡ true → after state command ≡ state }
{}

/// A change keeps the lines of paragraphs that stay, no lines are asked for that are kept, and when all idle work is
/// done the lines of all paragraphs are there.
pub fn kept_lines_stay()
    ensures change { (state : State) (command : Command) (number : ℕ) (live : Live) → is_change (reply_to state command) ≡ true
        → live_at number state.idle.live ≡ Some live → has_paragraph (present (after state command)) number ≡ true
        → (later : Live) × (live_at number (after state command).idle.live ≡ Some later) × (later.keys ≡ live.keys) }
    ensures job { (state : State) (job : Job) → reply_to state Command.Take ≡ Reply.Job job
        → (live : Live) × (live_at job.par.0 state.idle.live ≡ Some live) × (keeps live job.key ≡ false) }
    ensures done { (doc : Document) (idle : Idle) → IsReached doc idle → idle.debt ≡ 0 → KeepsLastRound doc idle }
{}

/// An undo brings back the document before the last change, whatever else was asked for between them, and a redo
/// behind an undo brings back all of the past.
pub fn changes_are_undone()
    ensures edit { (state : State) (group : Group) (version : ℕ) (between : List Command) → reply_to state (Command.Edit group) ≡ Reply.Changed version
        → version ≢ last_version → HasNoChange (after state (Command.Edit group)) between
        → ShowSame state (after (after_all (after state (Command.Edit group)) between) Command.Undo) }
    ensures undo { (state : State) (entry : Entry) (earlier : List Entry) → state.past.earlier ≡ entry ∷ earlier → state.version ≢ last_version
        → (reply_to state Command.Undo ≡ Reply.Changed (state.version + 1)) × (present (after state Command.Undo) ≡ entry.document) }
    ensures redo { (state : State) (entry : Entry) (undone : List Entry) → state.past.undone ≡ entry ∷ undone → state.version ≢ last_version
        → (reply_to state Command.Redo ≡ Reply.Changed (state.version + 1)) × (present (after state Command.Redo) ≡ entry.document) }
    ensures again { (state : State) (version : ℕ) (between : List Command) → reply_to state Command.Undo ≡ Reply.Changed version
        → version ≢ last_version → HasNoChange (after state Command.Undo) between
        → (after (after_all (after state Command.Undo) between) Command.Redo).past ≡ state.past }
{}

/// As many undos as there were changes bring back the document before them, where these are at most 256 and the
/// greatest version is not reached.
pub fn many_changes_are_undone()
    ensures { (state : State) (commands : List Command) → Each (λ command. is_onward command ≡ true) commands → change_count state commands ≤ 256
        → state.version + 2 * change_count state commands ≤ last_version
        → ShowSame state (after_all (after_all state commands) (replicate (change_count state commands) Command.Undo)) }
{}

/// Commands without a change between them leave the past, the version and what is saved as they are.
pub fn nothing_else_is_saved()
    ensures past { (state : State) (commands : List Command) → HasNoChange state commands → (after_all state commands).past ≡ state.past }
    ensures version { (state : State) (commands : List Command) → HasNoChange state commands → (after_all state commands).version ≡ state.version }
    ensures same { (state : State) (commands : List Command) → HasNoChange state commands → ShowSame state (after_all state commands) }
{}

/// The least paragraph number that was never given doesn't fall.
pub fn next_number_never_falls()
    ensures { (state : State) (commands : List Command) → state.next ≤ (after_all state commands).next }
{}

/// The debt: a change makes it the full one, and nothing else raises it; each stop that is passed lowers it, and so
/// does each turn until none is left.
pub fn debt_falls()
    ensures full { (state : State) (command : Command) → is_change (reply_to state command) ≡ true
        → (after state command).idle.debt ≡ 19 * paragraph_count (present (after state command)) + 1 }
    ensures other { (state : State) (command : Command) → is_change (reply_to state command) ≡ false → (after state command).idle.debt ≤ state.idle.debt }
    ensures moved { (state : State) (debt : ℕ) → reply_to state Command.Take ≡ Reply.Moved debt
        → ((after state Command.Take).idle.debt ≡ debt) × (debt < state.idle.debt) }
    ensures entered { (state : State) (job : Job) (debt : ℕ) → reply_to state (Command.Publish job) ≡ Reply.Entered debt
        → is_form_stop_of (present state) (stop_at (paragraph_count (present state)) state.idle.debt) job.par.0 job.key ≡ true
        → ((after state (Command.Publish job)).idle.debt ≡ debt) × (debt < state.idle.debt) }
    ensures turned { (state : State) → state.idle.debt ≢ 0 → (turn state).1.idle.debt < state.idle.debt }
{}

/// Settling ends with no debt, after at most as many turns as the debt was; and that is at most 19 for each paragraph
/// and one more, in every state that is reached from the start. It comes to commands without a change, so all that
/// holds after these holds after it.
pub fn settling_ends()
    ensures settled { (state : State) → (settle state).1.idle.debt ≡ 0 }
    ensures turns { (state : State) → (settle state).0 ≤ state.idle.debt }
    ensures commands { (state : State) → (commands : List Command) × HasNoChange state commands × ((settle state).1 ≡ after_all state commands) }
    ensures bound { (doc : Document) (version : ℕ) (commands : List Command)
        → (after_all (start_at doc version) commands).idle.debt ≤ 19 * paragraph_count (present (after_all (start_at doc version) commands)) + 1 }
{}

/// What holds of the idle work in every state that is reached from the start; and when all of it is done there, the
/// lines of all paragraphs are kept.
pub fn reached_states_hold()
    ensures reached { (doc : Document) (version : ℕ) (commands : List Command)
        → IsReached (present (after_all (start_at doc version) commands)) (after_all (start_at doc version) commands).idle }
    ensures done { (doc : Document) (version : ℕ) (commands : List Command) → (after_all (start_at doc version) commands).idle.debt ≡ 0
        → KeepsLastRound (present (after_all (start_at doc version) commands)) (after_all (start_at doc version) commands).idle }
{}

/// No stamp is that of a version still to come, in every state that is reached from the start.
pub fn stamps_are_past()
    ensures { (doc : Document) (version : ℕ) (commands : List Command) → AreStampsPast (after_all (start_at doc version) commands) }
{}

/// The lines of a job are refused, with its stamp and the present one, where a change since it was taken touched or
/// removed its paragraph or changed styles, also if the text is the same again; else they are kept.
pub fn no_stale_line_enters()
    ensures stale { (state : State) (job : Job) (commands : List Command) → AreStampsPast state → reply_to state Command.Take ≡ Reply.Job job
        → are_outdated_by (after state Command.Take) commands job.par.0 ≡ true
        → reply_to (after_all (after state Command.Take) commands) (Command.Publish job)
        ≡ Reply.Stale job.stamp (present_stamp (after_all (after state Command.Take) commands).idle job.par.0) }
    ensures fresh { (state : State) (job : Job) (commands : List Command) → AreStampsPast state → reply_to state Command.Take ≡ Reply.Job job
        → are_outdated_by (after state Command.Take) commands job.par.0 ≡ false
        → are_kept (reply_to (after_all (after state Command.Take) commands) (Command.Publish job)) ≡ true }
{}
