//! The desk.

ghost use Rattle.std.specs.Prelude.{◌≡◌, ◌≢◌, ◌≤◌, ℕ, length, map, take, Some, None, IfOk, OnErr};
ghost use Rattle.std.specs.List.{AllByRecursion as Each, list_any};
ghost use Rattle.desk_model.specs.Desk.{start_at, after_edit, changed, present, step, steps, taken_reply, published_reply, opened};
ghost use Rattle.edit_model.specs.Edit.{touched_by, is_restyling};
ghost use Rattle.round_model.specs.Idle.{restarted, most_keys};
ghost use Rattle.round_model.specs.Reached.{IsReached};
ghost use Rattle.round_model.specs.Rounds.{pages_in, last_round};
ghost use Rattle.round_model.specs.Stops.{paragraph_count};
ghost use Rattle.edit_model.specs.Past.{after_group};
ghost use Rattle.doc_model.specs.Reading.{paragraphs, number_of};
ghost use Rattle.doc_model.specs.Plain.{IsPlain};
ghost use Rattle.edit_ops.specs.PlainOps.{IsPlainOp};
ghost use Rattle.desk.specs.PlainCommand.{IsPlainCommand};

use crate::entry::Entry;
use crate::group::{restyles, touched_by};
use crate::live::live_paragraph;
use crate::pages::page_reply;
use crate::past::Past;
use desk_model::{Command, Reply};
use doc_model::{Document, Group, List, ParId};
use edit_ops::{EditFault, edited_by_group};
use idle_queue::Agenda;
use line_model::Formed;
use round_model::{Published, Taken};
use std::alloc::{AllocError, Global};
use std::marker::Model;

/// The greatest version, at which no change is made.
const LAST_VERSION: u32 = u32::MAX;

/// A document with its past and its idle work, which answers commands.
///
/// Contracts see the state of the machine that it is: the past, the least paragraph number that was never given, the
/// version, which each change raises by one, and the idle work. Every document that it holds is plain, and all of them
/// have as many paragraphs, since plain edits change texts alone.
///
/// A refusal, an answer that there is nothing to undo or redo, one that no change can be made any more, and want of
/// memory leave all as it was.
#[derive(Debug, Drop)]
pub struct Desk {
    past: Past,
    next: u32,
    version: u32,
    agenda: Agenda,
    alloc: Global,
}

impl Model for Desk {
    ghost use Rattle.std.specs.Coded.{codes};
    ghost use Rattle.doc_model.specs.contracts.document.Document as contract;
    ghost use Rattle.idle_queue.specs.contracts.agenda.Agenda as agenda_contract;
    ghost use Rattle.desk_model.specs.Desk.{State};
    ghost use Rattle.desk.specs.DeskState.{IsDeskState};

    ghost Value = { State };

    ghost coded = { Prim.hlevel (codes, contract.the_row.coded, agenda_contract.the_row.coded) };

    ghost view = { λ d. record { past = d.past; next = d.next; version = d.version; idle = d.agenda } };

    ghost invariant = { λ d. IsDeskState d.past d.agenda };
}

impl Desk {
    /// A desk over a plain document, to which nothing was done yet, at version 1.
    pub fn start(alloc: Global, doc: Document) -> Result<Desk, AllocError>
        requires { IsPlain doc }
        ensures { IfOk result (λ desk. desk ≡ start_at doc 1) }
    {
        Desk::start_at(alloc, doc, 1)
    }

    /// The same at a version of one's choice.
    pub fn start_at(alloc: Global, doc: Document, version: u32) -> Result<Desk, AllocError>
        requires { IsPlain doc }
        ensures { IfOk result (λ desk. desk ≡ start_at doc version) }
    {
        let next = doc.body.len() as u32 + 1;
        let agenda = Agenda::start(alloc, &doc, version)?;
        Ok(Desk {
            past: Past::of_document(alloc, doc),
            next,
            version,
            agenda,
            alloc,
        })
    }

    /// Answers commands one after another: the replies are those of the machine, and the desk is in the machine's state
    /// after them. This is the promise that the desk is the machine.
    ///
    /// After want of memory it is in the state after some of them, and their replies are lost.
    pub fn answer(&mut self, commands: &[Command]) -> Result<List<Reply>, AllocError>
        requires { Each IsPlainCommand commands.now }
        ensures ok { IfOk result (λ replies. (replies, self.new) ≡ steps self.old commands.now) }
        ensures err { OnErr result ((count : ℕ) × (self.new ≡ (steps self.old (take count commands.now)).1)) }
    {
        let mut replies = List::new(self.alloc);
        'commands: for command in commands {
            let reply = self.step(command)?;
            replies.push(reply)?;
        }
        Ok(replies)
    }

    /// Answers a command.
    pub fn step(&mut self, command: &Command) -> Result<Reply, AllocError>
        requires { IsPlainCommand command.now }
        ensures ok { IfOk result (λ reply. (reply, self.new) ≡ step self.old command.now) }
        ensures err { OnErr result (self.new ≡ self.old) }
    {
        match command {
            Command::Edit(group) => self.edit(group),
            Command::Undo => self.undo(),
            Command::Redo => self.redo(),
            Command::Take => Ok(Reply::of_taken(self.take()?)),
            Command::Publish(formed) => Ok(Reply::of_published(self.publish(formed)?)),
            Command::Page(index) => self.page(*index),
            Command::Text(par) => self.text(*par),
            Command::Save => self.save(),
            Command::Debt => Ok(Reply::Debt(self.debt())),
            Command::Version => Ok(Reply::Version(self.version())),
        }
    }

    /// Makes the edits one after another, all or none. The document before them becomes the next one to go back to,
    /// of which the last 256 are kept, and what was undone is let go. All idle work is to be done again.
    pub fn edit(&mut self, group: &Group) -> Result<Reply, AllocError>
        requires { Each IsPlainOp group.now.0 }
        ensures ok { IfOk result (λ reply. (reply, self.new) ≡ after_edit self.old group.now.0) }
        ensures err { OnErr result (self.new ≡ self.old) }
    {
        match edited_by_group(self.alloc, self.past.present(), group) {
            Ok(document) => self.change(document, group),
            Err(EditFault::Refused { index, why }) => Ok(Reply::Refused { index, why }),
            Err(EditFault::NoMemory) => Err(AllocError),
        }
    }

    /// Goes back to the document before the last change that wasn't taken back yet. The one that it leaves is kept,
    /// as the next one to go forth to. All idle work is to be done again.
    pub fn undo(&mut self) -> Result<Reply, AllocError>
        ensures ok { IfOk result (λ reply. (reply, self.new) ≡ step self.old Command.Undo) }
        ensures err { OnErr result (self.new ≡ self.old) }
    {
        if !self.past.has_earlier() {
            return Ok(Reply::NothingToUndo);
        }
        if self.version == LAST_VERSION {
            return Ok(Reply::Changes(LAST_VERSION));
        }
        self.past.undo()?;
        let version = self.version + 1;
        let entry = self.past.next_undone();
        restart(&mut self.agenda, self.past.present(), entry, version);
        self.version = version;
        Ok(Reply::Changed(version))
    }

    /// Goes forth to the document that the last undo left. The one that it leaves is kept, as the next one to go back
    /// to. All idle work is to be done again.
    pub fn redo(&mut self) -> Result<Reply, AllocError>
        ensures ok { IfOk result (λ reply. (reply, self.new) ≡ step self.old Command.Redo) }
        ensures err { OnErr result (self.new ≡ self.old) }
    {
        if !self.past.has_undone() {
            return Ok(Reply::NothingToRedo);
        }
        if self.version == LAST_VERSION {
            return Ok(Reply::Changes(LAST_VERSION));
        }
        self.past.redo()?;
        let version = self.version + 1;
        let entry = self.past.next_earlier();
        restart(&mut self.agenda, self.past.present(), entry, version);
        self.version = version;
        Ok(Reply::Changed(version))
    }

    /// Passes one stop of the idle work, or answers the job that is wanted there.
    pub fn take(&mut self) -> Result<Taken, AllocError>
        ensures ok { IfOk result (λ taken. (taken_reply taken, self.new) ≡ step self.old Command.Take) }
        ensures err { OnErr result (self.new ≡ self.old) }
    {
        let taken = self.agenda.take(self.past.present())?;
        Ok(taken)
    }

    /// Hands in the lines of a job. They are kept, unless the paragraph or the styles changed since the job was taken.
    pub fn publish(&mut self, formed: &Formed) -> Result<Published, AllocError>
        ensures ok { IfOk result (λ published. (published_reply published, self.new) ≡ step self.old (Command.Publish formed.now)) }
        ensures err { OnErr result (self.new ≡ self.old) }
    {
        let published = self.agenda.publish(self.past.present(), formed)?;
        Ok(published)
    }

    /// The page of this index, from 1, once all idle work is done.
    pub fn page(&self, index: u32) -> Result<Reply, AllocError>
        ensures { IfOk result (λ reply. (reply, self.now) ≡ step self.now (Command.Page index)) }
    {
        let debt = self.agenda.debt();
        if debt != 0 {
            return Ok(Reply::NotYet(debt));
        }
        let pages = self.agenda.pages(self.alloc, self.past.present())?;
        Ok(page_reply(pages, index))
    }

    /// How many pages there are, once all idle work is done. It takes no memory. Until pages are broken, there is one.
    pub fn page_count(&self) -> Option<u32>
        ensures settled { self.now.idle.debt ≡ 0 → result ≡ Some (length (pages_in (present self.now) (last_round (present self.now)))) }
        ensures owing { self.now.idle.debt ≢ 0 → result ≡ None }
    {
        if self.agenda.debt() != 0 {
            return None;
        }
        Some(1)
    }

    /// The text of a paragraph.
    pub fn text(&self, par: ParId) -> Result<Reply, AllocError>
        ensures { IfOk result (λ reply. (reply, self.now) ≡ step self.now (Command.Text par)) }
    {
        match live_paragraph(self.past.present(), par) {
            Some(live) => Ok(Reply::Text(par_keys::text_of(self.alloc, live)?)),
            None => Ok(Reply::NoPar(par)),
        }
    }

    /// The canonical bytes of the present document.
    pub fn save(&self) -> Result<Reply, AllocError>
        ensures { IfOk result (λ reply. (reply, self.now) ≡ step self.now Command.Save) }
    {
        Ok(Reply::Saved(canon_save::save(self.alloc, self.past.present())?))
    }

    /// How much idle work is left. It takes no memory.
    pub fn debt(&self) -> u32
        ensures { result ≡ self.now.idle.debt }
    {
        self.agenda.debt()
    }

    /// The version. It takes no memory.
    pub fn version(&self) -> u32
        ensures { result ≡ self.now.version }
    {
        self.version
    }

    // Makes what a group that isn't refused gives the present document, below the greatest version. All that takes
    // memory comes first.
    fn change(&mut self, document: Document, group: &Group) -> Result<Reply, AllocError>
        requires plain { IsPlain document }
        requires count { paragraph_count document ≡ paragraph_count (present self.old) }
        ensures ok { IfOk result (λ reply. (reply, self.new)
            ≡ changed self.old (after_group self.old.past document (touched_by (opened self.old) group.now.0) (list_any is_restyling group.now.0)) self.old.next
            (touched_by (opened self.old) group.now.0) (list_any is_restyling group.now.0)) }
        ensures err { OnErr result (self.new ≡ self.old) }
    {
        if self.version == LAST_VERSION {
            return Ok(Reply::Changes(LAST_VERSION));
        }
        let touched = touched_by(self.alloc, group)?;
        self.past.put(document, touched, restyles(group))?;
        let version = self.version + 1;
        let entry = self.past.next_earlier();
        restart(&mut self.agenda, self.past.present(), entry, version);
        self.version = version;
        Ok(Reply::Changed(version))
    }
}

// Begins all idle work again, over the document that a change made the present one. The entry that the change left in
// the past tells what it touched.
fn restart(agenda: &mut Agenda, next: &Document, entry: &Entry, version: u32)
    requires plain { IsPlain next.now }
    requires same { map (λ live. live.par) agenda.old.live ≡ map number_of (paragraphs next.now) }
    requires few { Each (λ live. length live.keys ≤ most_keys) agenda.old.live }
    ensures restarted { agenda.new ≡ restarted agenda.old next.now entry.now.touched entry.now.restyling version }
    ensures reached { IsReached next.now agenda.new }
{
    agenda.restart(next, entry.touched.get(), entry.restyling, version);
}
