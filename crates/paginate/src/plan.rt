//! The plan of the pages of a document.

ghost use Rattle.std.specs.Prelude.{◌≤◌, vec_len};
ghost use Rattle.paginate.specs.Roomy.{IsRoomy};

use crate::breaker::{Breaker, Closed};
use crate::finish::close_all;
use crate::frames::frames;
use crate::rows::rows_of_par;
use crate::sets::set_of_par;
use crate::table::page_table;
use doc_model::{List, Master, PageLayout, PageTable, ParId};
use page_model::{Frames, PageBody, ParRows, Row};
use std::alloc::{AllocError, Global};

/// The pages of paragraphs, which are placed one after another.
///
/// It keeps the rows that are on no page yet. A page is closed once there are more rows than it has room for, since none that
/// follow can change its end; `finish` closes the others.
#[derive(Drop)]
pub struct Plan {
    masters: List<Master>,
    frames: Frames,
    /// The paragraphs in the order in which they are set.
    set: Vec<ParId>,
    /// The rows that are on no closed page, behind so many that are.
    rows: Vec<Row>,
    /// How many of the rows are on closed pages.
    from: usize,
    breaker: Breaker,
    /// The pages that were closed last, by `finish`.
    last: Vec<Closed>,
    finished: bool,
    ghost within: { from ≤ vec_len rows },
    ghost roomy: { IsRoomy frames },
}

impl Plan {
    ghost use Rattle.std.specs.Prelude.{◌≡◌, ℕ, ◌+◌, ◌-◌, ◌<◌, ◌^◌, List, [], ◌∷◌, ◌++◌, IfOk, OnOk, OnErr, Some, length, slice_get, true, false};
    ghost use Rattle.doc_model.specs.declared.page_layout.Master.{Master};
    ghost use Rattle.doc_model.specs.declared.page_layout.PageLayout.{PageLayout};
    ghost use Rattle.page_model.specs.declared.placed.ParRows.{ParRows};
    ghost use Rattle.style_model.specs.Masters.{AreMastersThere};
    ghost use Rattle.paginate.specs.Placed.{pending, row_count, bodies, HasPlaced, HoldsSame, Adds, IsFinished, IsShort};
    ghost use Rattle.page_model.specs.Table.{table_of};

    /// A plan on which nothing is placed.
    pub fn new(
        alloc: Global,
        masters: &[Master],
        layouts: &[PageLayout],
    ) -> Result<Plan, AllocError>
        requires { AreMastersThere masters.now }
        ensures { IfOk result (λ plan. HasPlaced masters.now layouts.now [] plan) }
    {
        let frames = frames(alloc, masters, layouts)?;
        let breaker = Breaker::new(alloc)?;
        let masters = Vec::from_clones(alloc, masters)?;
        Ok(Plan {
            masters: List::from_list(masters),
            frames,
            set: Vec::new(alloc),
            rows: Vec::new(alloc),
            from: 0,
            breaker,
            last: Vec::new(alloc),
            finished: false,
        })
    }

    /// Places the paragraph behind those that were placed: paragraphs of the body in reading order, and then those of
    /// endnotes. Its footnotes come with it. It looks at the rows of this paragraph and of the pages that are closed. After want
    /// of memory the plan stands as before.
    pub fn place_one(&mut self, alloc: Global, par: &ParRows) -> Result<(), AllocError>
        ensures ok { (masters : List Master) (layouts : List PageLayout) (pars : List ParRows) → HasPlaced masters layouts pars self.old → row_count masters (pars ++ par.now ∷ []) < 2 ^ 32 - 65536 → OnOk result (HasPlaced masters layouts (pars ++ par.now ∷ []) self.new) }
        ensures err { (masters : List Master) (layouts : List PageLayout) (pars : List ParRows) → HasPlaced masters layouts pars self.old → OnErr result (HasPlaced masters layouts pars self.new) }
    {
        'pages: while self.close_one(alloc)? {}
        let set = set_of_par(alloc, par)?;
        let rows = rows_of_par(alloc, self.masters.get(), self.set.len(), par)?;
        self.drop_closed();
        self.add(set, rows)
    }

    /// Closes a page where there are more rows than it has room for, and tells whether it did.
    fn close_one(&mut self, alloc: Global) -> Result<bool, AllocError>
        ensures stays { (masters : List Master) (layouts : List PageLayout) (pars : List ParRows) → HasPlaced masters layouts pars self.old → HasPlaced masters layouts pars self.new }
        ensures less { IfOk result (λ closed. closed ≡ true → length (pending self.new) < length (pending self.old)) }
    {
        let rows = &self.rows[self.from..];
        if !self.breaker.is_full(&self.frames, rows) {
            return Ok(false);
        }
        let count = self.breaker.close(alloc, &self.frames, rows)?;
        self.from += count;
        Ok(true)
    }

    /// Drops the rows of closed pages where they are at least half of all.
    fn drop_closed(&mut self)
        ensures { HoldsSame self.old self.new }
    {
        let kept = self.rows.len() - self.from;
        if kept <= self.from {
            self.rows.rotate_left(self.from);
            self.rows.truncate(kept);
            self.from = 0;
        }
    }

    /// Adds paragraphs, and rows.
    fn add(&mut self, set: Vec<ParId>, rows: Vec<Row>) -> Result<(), AllocError>
        ensures ok { OnOk result (Adds set.items rows.items self.old self.new) }
        ensures err { OnErr result (HoldsSame self.old self.new) }
    {
        let mut set = set;
        let mut rows = rows;
        let before = self.set.len();
        self.set.append(&mut set)?;
        match self.rows.append(&mut rows) {
            Ok(()) => Ok(()),
            Err(fault) => {
                self.set.truncate(before);
                Err(fault)
            }
        }
    }

    /// Closes the pages that are left, and gives the page table of all. Nothing may be placed afterwards.
    ///
    /// The pages are the greatest that fit: each ends at the last place where it may end at the least level that has one, and not
    /// past a place where it must end. A document without rows has one page. After want of memory the plan stands as before.
    pub fn finish(&mut self, alloc: Global) -> Result<PageTable, AllocError>
        ensures ok { (masters : List Master) (layouts : List PageLayout) (pars : List ParRows) → HasPlaced masters layouts pars self.old → IfOk result (λ table. (table ≡ table_of masters layouts pars) × IsFinished masters layouts pars self.new) }
        ensures err { (masters : List Master) (layouts : List PageLayout) (pars : List ParRows) → HasPlaced masters layouts pars self.old → OnErr result (HasPlaced masters layouts pars self.new) }
    {
        let mut breaker = self.breaker.branch(alloc)?;
        close_all(alloc, &self.frames, &mut breaker, &self.rows[self.from..])?;
        let set = self.set.as_slice();
        let table = page_table(alloc, set, &self.breaker.pages, &breaker.pages)?;
        self.last = breaker.into_pages();
        self.finished = true;
        Ok(table)
    }

    /// How many pages there are, once the plan is finished.
    pub fn count(&self) -> u32
        requires { IsShort self.now }
        ensures { result ≡ length (bodies self.now) }
    {
        (self.breaker.pages.len() + self.last.len()) as u32
    }

    /// The body of a page by its index, from 1, once the plan is finished.
    pub fn body(&self, n: u32) -> &PageBody
        requires there { 1 ≤ n }
        requires within { n ≤ length (bodies self.now) }
        ensures { slice_get (bodies self.now) (n - 1) ≡ Some result.now }
    {
        let place = n as usize - 1;
        let closed = self.breaker.pages.len();
        if place < closed {
            &self.breaker.pages[place].body
        } else {
            &self.last[place - closed].body
        }
    }

    /// The masters that the plan was given.
    pub fn masters(&self) -> &[Master]
        ensures { result.now ≡ self.now.masters }
    {
        self.masters.get()
    }
}
