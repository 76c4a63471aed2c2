//! The idle work of a desk.

ghost use Rattle.std.specs.Prelude.{◌≡◌, ℕ, ◌≤◌, ◌<◌, [], map, length, slice_get, slice_set, Option, Some, None, true, false, nat_lt, if◌then◌else◌, IfOk, OnOk, OnErr, ◌++◌};
ghost use Rattle.std.specs.List.{AllByRecursion as Each};
ghost use Rattle.std.specs.Option.{option_copied, option_map};
ghost use Rattle.doc_model.specs.declared.document.Document.{Document};
ghost use Rattle.doc_model.specs.declared.paragraph.Par.{Par};
ghost use Rattle.doc_model.specs.Plain.{IsPlain};
ghost use Rattle.doc_model.specs.Reading.{paragraphs, number_of, upwards};
ghost use Rattle.round_model.specs.declared.turn.Taken.TheVariants as took;
ghost use Rattle.round_model.specs.Idle.{Live, idle_at, take, publish, job_at, live_at, stamp_of, keeps, with_key, restarted, most_keys};
ghost use Rattle.line_model.specs.Keys.{key_of};
ghost use Rattle.round_model.specs.Rounds.{last_round, pages_in, rows_of};
ghost use Rattle.round_model.specs.Reached.{IsReached};
ghost use Rattle.round_model.specs.Stops.{stop_at, full_debt, debt_behind, paragraph_count};
ghost use Rattle.round_model.specs.Stops as stops;
ghost use Rattle.line_model.specs.Lines.{lines_of};
ghost use Rattle.idle_queue.specs.Current.{is_current};
ghost use Rattle.idle_queue.specs.MayEnter.{MayEnter};
ghost use Rattle.idle_queue.specs.StopOf.{places_passed};

use crate::kept::{LivePar, is_same_key};
use crate::places::{par_at, paragraph_count};
use crate::stop::{Stop, debt_behind, debt_entered, full_debt, places_passed, stop_at};
use crate::touched::touch_all;
use break_units::row;
use doc_model::{Document, List, Page, Txt};
use line_model::{Formed, Job, Key, Line, Stamp};
use par_keys::key_of;
use round_model::{Published, Taken};
use sqlite_items::at;
use std::alloc::{AllocError, Global};
use std::marker::Model;

/// The idle work of a desk: how much is left to do, and which lines are kept.
///
/// Contracts see the version that last changed styles, what is kept of each paragraph, and the debt. Paragraphs are
/// those of a plain document, which are numbered 1, 2, 3 and so on; number n is at place n - 1.
#[derive(Debug, Drop)]
pub struct Agenda {
    epoch: u32,
    debt: u32,
    live: Vec<LivePar>,
}

impl Model for Agenda {
    ghost use Rattle.std.specs.Coded.{codes};
    ghost use Rattle.idle_queue.specs.contracts.kept.LivePar as contract;
    ghost use Rattle.round_model.specs.Idle.{Idle};

    ghost Value = { Idle };

    ghost coded = { Prim.hlevel (codes, contract.the_row.coded) };

    ghost view = { λ a. record { epoch = a.epoch; live = a.live.items; debt = a.debt } };
}

impl Agenda {
    /// The idle work of a document that is opened at a version: all of it, with no lines kept.
    pub fn start(alloc: Global, doc: &Document, version: u32) -> Result<Agenda, AllocError>
        requires { IsPlain doc.now }
        ensures start { IfOk result (λ agenda. agenda ≡ idle_at doc.now version) }
        ensures reached { IfOk result (λ agenda. IsReached doc.now agenda) }
    {
        let count = paragraph_count(doc);
        let live = fresh(alloc, count, version)?;
        Ok(Agenda {
            epoch: version,
            debt: full_debt(count),
            live,
        })
    }

    /// How much is left to do.
    pub fn debt(&self) -> u32
        ensures { result ≡ self.now.debt }
    {
        self.debt
    }

    /// Passes the stop that the debt tells, or answers the job that stands there. A job is answered again until its
    /// lines are published or the document changes. It costs what the paragraph at the stop costs.
    pub fn take(&mut self, doc: &Document) -> Result<Taken, AllocError>
        requires plain { IsPlain doc.now }
        requires reached { IsReached doc.now self.old }
        ensures ok { IfOk result (λ taken. (taken, self.new) ≡ take doc.now self.old) }
        ensures err { OnErr result (self.new ≡ self.old) }
        ensures reached { IsReached doc.now self.new }
    {
        match stop_at(paragraph_count(doc), self.debt()) {
            Stop::Settled => Ok(Taken::Settled),
            Stop::Form { place, .. } => self.take_job(doc, place as usize),
            _ => Ok(self.pass(doc)),
        }
    }

    /// Keeps the lines of a job, where its paragraph and the styles are as they were when it was taken. Where the job
    /// stands at the present stop, the stop is passed. It costs what the paragraph costs; the answers that nothing is
    /// kept take no memory.
    pub fn publish(&mut self, doc: &Document, formed: &Formed) -> Result<Published, AllocError>
        requires plain { IsPlain doc.now }
        requires reached { IsReached doc.now self.old }
        ensures ok { IfOk result (λ published. (published, self.new) ≡ publish doc.now self.old formed.now) }
        ensures err { OnErr result (self.new ≡ self.old) }
        ensures reached { IsReached doc.now self.new }
    {
        let job = formed.job();
        let had = job.stamp;
        let Some(now) = self.stamp(job.par.0) else {
            return Ok(Published::Stale { had, now: None });
        };
        if !had.is_same(&now) {
            let now = Some(now);
            return Ok(Published::Stale { had, now });
        }
        if self.keeps(job.par.0 as usize - 1, &job.key) {
            return Ok(Published::Already);
        }
        self.enter(doc, formed)
    }

    /// Begins all work anew after a change that made this document and this version: of the paragraphs with these numbers
    /// the version is the last that touched them, and where the change is one of styles, the last that changed styles.
    /// All kept lines stay. It takes no memory, and costs what the numbers cost.
    pub fn restart(&mut self, next: &Document, touched: &[u32], restyling: bool, version: u32)
        requires plain { IsPlain next.now }
        requires same { map (λ live. live.par) self.old.live ≡ map number_of (paragraphs next.now) }
        ensures restarted { self.new ≡ restarted self.old next.now touched.now restyling version }
        ensures reached { Each (λ live. length live.keys ≤ most_keys) self.old.live → IsReached next.now self.new }
    {
        touch_all(&mut self.live, touched, version);
        self.epoch = epoch_behind(self.epoch, restyling, version);
        self.debt = full_debt(paragraph_count(next));
    }

    /// The pages, when nothing is left to do: until pages are broken there is one, which has the rows of all paragraphs.
    pub fn pages(&self, alloc: Global, doc: &Document) -> Result<List<Page>, AllocError>
        requires plain { IsPlain doc.now }
        requires reached { IsReached doc.now self.now }
        requires settled { self.now.debt ≡ 0 }
        ensures { IfOk result (λ pages. pages ≡ pages_in doc.now (last_round doc.now)) }
    {
        let mut rows = List::new(alloc);
        'paragraphs: for place in 0..paragraph_count(doc) {
            self.push_rows(&mut rows, alloc, doc, place as usize)?;
        }
        let mut pages = List::new(alloc);
        pages.push(Page {
            index: 1,
            number: 1,
            rows,
        })?;
        Ok(pages)
    }

    // Appends the rows of the paragraph at a place.
    fn push_rows(
        &self,
        rows: &mut List<Txt>,
        alloc: Global,
        doc: &Document,
        place: usize,
    ) -> Result<(), AllocError>
        requires plain { IsPlain doc.now }
        requires reached { IsReached doc.now self.now }
        requires settled { self.now.debt ≡ 0 }
        requires within { place < paragraph_count doc.now }
        ensures { OnOk result ((par : Par) → slice_get (paragraphs doc.now) place ≡ Some par → rows.new ≡ rows.old ++ rows_of (key_of par)) }
    {
        let key = key_of(alloc, par_at(doc, place))?;
        let Some(lines) = self.live[place].lines(&key) else {
            unreachable!();
        };
        push_lines(rows, alloc, &key, lines)
    }

    // The answer at the form stop of the paragraph at a place.
    fn take_job(&mut self, doc: &Document, place: usize) -> Result<Taken, AllocError>
        requires plain { IsPlain doc.now }
        requires reached { IsReached doc.now self.old }
        requires form { (round : ℕ) × (stop_at (paragraph_count doc.now) self.old.debt ≡ stops.Stop.Form round place) }
        ensures ok { IfOk result (λ taken. (taken, self.new) ≡ take doc.now self.old) }
        ensures err { OnErr result (self.new ≡ self.old) }
        ensures reached { IsReached doc.now self.new }
    {
        match self.job_at(doc, place)? {
            Some(job) => Ok(Taken::Job(job)),
            None => Ok(self.pass(doc)),
        }
    }

    // Passes the stop that the debt tells.
    fn pass(&mut self, doc: &Document) -> Taken
        requires plain { IsPlain doc.now }
        requires owed { self.old.debt ≤ full_debt (paragraph_count doc.now) }
        ensures taken { result ≡ took.Moved (debt_behind doc.now self.old.debt) }
        ensures passed { self.new ≡ record self.old { debt = debt_behind doc.now self.old.debt } }
    {
        self.debt = debt_behind(paragraph_count(doc), self.debt);
        Taken::Moved(self.debt)
    }

    // The job of the paragraph at a place, unless its lines are kept.
    fn job_at(&self, doc: &Document, place: usize) -> Result<Option<Job>, AllocError>
        requires plain { IsPlain doc.now }
        requires reached { IsReached doc.now self.now }
        requires within { place < paragraph_count doc.now }
        ensures { IfOk result (λ job. (round : ℕ) → job ≡ job_at doc.now self.now round place) }
    {
        let par = par_at(doc, place);
        let live = &self.live[place];
        let key = key_of(*self.live.allocator(), par)?;
        if live.keeps(&key) {
            return Ok(None);
        }
        let stamp = self.stamp_of(live);
        let par = par.id;
        Ok(Some(Job { par, stamp, key }))
    }

    // The stamp of the paragraph of a number, if it is live.
    fn stamp(&self, number: u32) -> Option<Stamp>
        requires { map (λ live. live.par) self.now.live ≡ upwards 1 (length self.now.live) }
        ensures { result ≡ option_map (stamp_of self.now) (live_at number self.now.live) }
    {
        if number == 0 {
            return None;
        }
        let live = at(self.live.as_slice(), number as usize - 1)?;
        Some(self.stamp_of(live))
    }

    // The stamp of a live paragraph.
    fn stamp_of(&self, live: &LivePar) -> Stamp
        ensures { result ≡ stamp_of self.now live.now }
    {
        Stamp {
            revision: live.revision(),
            epoch: self.epoch,
        }
    }

    // Whether the lines of a key are kept of the paragraph at a place.
    fn keeps(&self, place: usize, key: &Key) -> bool
        requires { place < length self.now.live }
        ensures { (live : Live) → slice_get self.now.live place ≡ Some live → result ≡ keeps live key.now }
    {
        self.live[place].keeps(key)
    }

    // Keeps the lines of a job that may enter.
    fn enter(&mut self, doc: &Document, formed: &Formed) -> Result<Published, AllocError>
        requires plain { IsPlain doc.now }
        requires reached { IsReached doc.now self.old }
        requires may { (live : Live) × MayEnter self.old formed.now live }
        ensures ok { IfOk result (λ published. (published, self.new) ≡ publish doc.now self.old formed.now) }
        ensures err { OnErr result (self.new ≡ self.old) }
        ensures reached { IsReached doc.now self.new }
    {
        let job = formed.job();
        let place = job.par.0 as usize - 1;
        let count = paragraph_count(doc);
        let current = key_of(self.allocator(), par_at(doc, place))?;
        let is_present = is_same_key(&current, &job.key);
        let debt = debt_entered(count, self.debt(), place, is_present);
        let used = in_use(count, debt, place, &current);
        self.keep(place, formed.copy()?, used, debt)?;
        Ok(Published::Entered(debt))
    }

    // Keeps lines of the paragraph at a place, and makes this the debt.
    fn keep(
        &mut self,
        place: usize,
        formed: Formed,
        in_use: Option<&Key>,
        debt: u32,
    ) -> Result<(), AllocError>
        requires { place < length self.old.live }
        ensures ok { OnOk result ((live : Live) → slice_get self.old.live place ≡ Some live
            → self.new ≡ record self.old {
              debt = debt;
              live = slice_set self.old.live place (record live { keys = with_key (is_current (option_copied in_use.entry)) live.keys formed.key });
            }) }
        ensures err { OnErr result (self.new ≡ self.old) }
    {
        self.live[place].enter(formed, in_use)?;
        self.debt = debt;
        Ok(())
    }

    fn allocator(&self) -> Global {
        *self.live.allocator()
    }
}

// The version that last changed styles, behind a change that made a version.
fn epoch_behind(epoch: u32, restyling: bool, version: u32) -> u32
    ensures { result ≡ (if restyling then version else epoch) }
{
    if restyling { version } else { epoch }
}

// Appends the rows of lines of a key.
fn push_lines(
    rows: &mut List<Txt>,
    alloc: Global,
    key: &Key,
    lines: &[Line],
) -> Result<(), AllocError>
    requires { lines.now ≡ lines_of key.now }
    ensures { OnOk result (rows.new ≡ rows.old ++ rows_of key.now) }
{
    'lines: for line in lines {
        rows.push(row(alloc, key, line)?)?;
    }
    Ok(())
}

// The key of the paragraph at a place, where it is in use.
fn in_use(count: u32, debt: u32, place: usize, current: &Key) -> Option<&Key>
    requires some { 1 ≤ count }
    requires few { count ≤ 65536 }
    requires owed { debt ≤ full_debt count }
    ensures { option_copied result ≡ (if nat_lt place (places_passed count (stop_at count debt)) then Some current.now else None) }
{
    if place < places_passed(count, debt) as usize {
        return Some(current);
    }
    None
}

// Paragraphs numbered from 1 to a count, of which no lines are kept.
fn fresh(alloc: Global, count: u32, version: u32) -> Result<Vec<LivePar>, AllocError>
    requires { count ≤ 65536 }
    ensures { IfOk result (λ live. live.items ≡ map (λ number. record { par = number; revision = version; keys = [] }) (upwards 1 count)) }
{
    let mut live = Vec::with_capacity(alloc, count as usize)?;
    'numbers: for before in 0..count {
        live.push(LivePar::new(alloc, before + 1, version))?;
    }
    Ok(live)
}
