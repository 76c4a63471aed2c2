//! The pages that are closed, and what they leave to the next one.

ghost use Rattle.std.specs.Prelude.{◌≤◌, vec_len};

use crate::closing::{closed, first_notes};
use crate::contents::{notes_of, push_note_rows};
use crate::heads::{copy_heads, no_heads};
use crate::turn::{next_turn, room_for};
use doc_model::List;
use page_model::{Frames, HeadText, NoteRow, PageBody, Row};
use std::alloc::{AllocError, Global};

/// A page that is closed.
#[derive(Drop)]
pub struct Closed {
    /// Its body.
    pub body: PageBody,
    /// The places, in the order in which paragraphs are set, of those whose first rows stand on it.
    pub firsts: List<usize>,
}

/// The pages that are closed, and what they leave to the next one.
#[derive(Drop)]
pub struct Breaker {
    /// The master of the last page.
    pub master: Option<usize>,
    /// The number of the last page, 0 before the first.
    pub number: u32,
    /// The note rows that are carried, behind so many that were shown.
    pub queue: Vec<NoteRow>,
    /// How many of them were shown.
    pub shown: usize,
    /// The last headings of the rows of the closed pages.
    pub heads: List<Option<HeadText>>,
    /// The pages.
    pub pages: Vec<Closed>,
    ghost within: { shown ≤ vec_len queue },
}

impl Breaker {
    ghost use Rattle.std.specs.Prelude.{◌≡◌, ℕ, ◌+◌, ◌<◌, ◌^◌, [], max, IfOk, OnErr, length, IsTrue, ◌↔◌};
    ghost use Rattle.page_model.specs.Pages.{count_for, is_over, left_by, nothing_left, room_for};
    ghost use Rattle.paginate.specs.Heads.{no_heads as blank_heads};
    ghost use Rattle.paginate.specs.Standing.{carried_by, left_of, Closes, StandsAs};

    /// No page yet.
    pub fn new(alloc: Global) -> Result<Breaker, AllocError>
        ensures { IfOk result (λ breaker. (left_of breaker ≡ nothing_left) × (breaker.heads ≡ blank_heads) × (breaker.pages.items ≡ [])) }
    {
        let heads = no_heads(alloc)?;
        Ok(Breaker {
            master: None,
            number: 0,
            queue: Vec::new(alloc),
            shown: 0,
            heads,
            pages: Vec::new(alloc),
        })
    }

    /// One that goes on where this one stands, with no page yet.
    pub fn branch(&self, alloc: Global) -> Result<Breaker, AllocError>
        ensures { IfOk result (λ breaker. (left_of breaker ≡ left_of self.now) × (breaker.heads ≡ self.now.heads) × (breaker.pages.items ≡ [])) }
    {
        let mut queue = Vec::new(alloc);
        push_note_rows(&mut queue, self.carried())?;
        let heads = copy_heads(alloc, self.heads.get())?;
        Ok(Breaker {
            master: self.master,
            number: self.number,
            queue,
            shown: 0,
            heads,
            pages: Vec::new(alloc),
        })
    }

    /// The pages.
    pub fn into_pages(self) -> Vec<Closed>
        ensures { result.items ≡ self.pages.items }
    {
        let Breaker {
            master: _,
            number: _,
            queue: _,
            shown: _,
            heads: _,
            pages,
        } = self;
        pages
    }

    /// The note rows that are carried.
    pub fn carried(&self) -> &[NoteRow]
        ensures { result.now ≡ carried_by self.now }
    {
        &self.queue[self.shown..]
    }

    /// Whether there are more rows than the page that begins with the first of them has room for, and so a row behind it.
    pub fn is_full(&self, frames: &Frames, rows: &[Row]) -> bool
        ensures { IsTrue result ↔ (max 1 (room_for frames.now (left_of self.now) rows.now) < length rows.now) }
    {
        (room_for(frames, self.master, rows) as usize).max(1) < rows.len()
    }

    /// Whether neither a row nor a carried note row is left.
    pub fn is_over(&self, rows: &[Row]) -> bool
        ensures { result ≡ is_over (left_of self.now) rows.now }
    {
        rows.is_empty() && self.carried().is_empty()
    }

    /// Closes the page that begins with the first of some rows, and tells how many of them it has.
    pub fn close(
        &mut self,
        alloc: Global,
        frames: &Frames,
        rows: &[Row],
    ) -> Result<usize, AllocError>
        ensures ok { IfOk result (λ count. self.old.number + 1 < 2 ^ 32 → Closes frames.now rows.now self.old self.new count) }
        ensures counted { IfOk result (λ count. count ≡ count_for frames.now (left_of self.old) rows.now) }
        ensures carried { IfOk result (λ count. carried_by self.new ≡ (left_by frames.now (left_of self.old) rows.now).carried) }
        ensures within { IfOk result (λ count. count ≤ length rows.now) }
        ensures some { IfOk result (λ count. 0 < length rows.now → 1 ≤ count) }
        ensures err { OnErr result (StandsAs self.old self.new) }
    {
        let turn = next_turn(frames, self.master, self.number, self.carried(), rows);
        let own = &rows[..turn.count];
        let mut notes = notes_of(alloc, own)?;
        let carried = first_notes(self.carried(), turn.space);
        let added = first_notes(notes.as_slice(), turn.space - carried.len());
        let shown = carried.len() + added.len();
        let closed = closed(alloc, &turn, self.heads.get(), own, carried, added)?;
        let heads = copy_heads(alloc, closed.body.heads.get())?;
        self.queue.reserve(notes.len())?;
        self.pages.push(closed)?;
        let _ = self.queue.append(&mut notes);
        self.master = turn.master;
        self.number = turn.number;
        self.heads = heads;
        self.shown += shown;
        self.clear_shown();
        Ok(turn.count)
    }

    /// Drops the note rows that were shown where none is carried.
    fn clear_shown(&mut self)
        ensures { StandsAs self.old self.new }
    {
        if self.shown == self.queue.len() {
            self.shown = 0;
            self.queue.clear();
        }
    }
}
