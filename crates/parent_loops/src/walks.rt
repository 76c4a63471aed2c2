//! Walks from one to its ancestors.
ghost use Rattle.std.specs.Prelude.{◌≡◌, ℕ, ◌<◌, ◌≤◌, ◌⊎◌, List, Option, false, length, slice_index_or, IfOk};
ghost use Rattle.std.specs.Bool.{Decides};
ghost use Rattle.parent_loops.specs.Ancestors.{parent_of, ancestor, IsOwnAncestor};
ghost use Rattle.parent_loops.specs.Walked.{met_at, AreDecided, IsWalked, AreMarked};

use std::alloc::{AllocError, Global};

/// What is known of some things: when each was met, counted from 1, or 0 where it wasn't met yet; which of those that
/// were met are their own ancestors; and how many were met.
#[derive(Drop)]
pub(crate) struct Walks {
    order: Vec<usize>,
    loops: Vec<bool>,
    count: usize,
}

/// Which things are their own ancestors, where this is the parent of each, by its place. A place behind the last one is no parent.
pub fn own_ancestors(alloc: Global, parents: &[Option<usize>]) -> Result<Vec<bool>, AllocError>
    ensures all { IfOk result (λ loops. length loops.items ≡ length parents.now) }
    ensures exact { IfOk result (λ loops. (at : ℕ) → at < length parents.now → Decides (slice_index_or loops.items at false) (IsOwnAncestor parents.now at)) }
{
    let count = parents.len();
    let mut walks = Walks::new(alloc, count)?;
    for from in 0..count {
        walks.walk(parents, from);
    }
    Ok(walks.loops)
}

impl Walks {
    // Nothing was met of so many things.
    fn new(alloc: Global, count: usize) -> Result<Walks, AllocError>
        ensures { IfOk result (λ walks. (parents : List (Option ℕ)) → length parents ≡ count → AreDecided parents walks.order.items walks.loops.items walks.count) }
    {
        let mut order = Vec::new(alloc);
        order.resize(count, 0)?;
        let mut loops = Vec::new(alloc);
        loops.resize(count, false)?;
        Ok(Walks {
            order,
            loops,
            count: 0,
        })
    }

    // Meets one and its ancestors, if it wasn't met.
    fn walk(&mut self, parents: &[Option<usize>], from: usize)
        requires decided { AreDecided parents.now self.old.order.items self.old.loops.items self.old.count }
        requires within { from < length parents.now }
        ensures decided { AreDecided parents.now self.new.order.items self.new.loops.items self.new.count }
        ensures met { 0 < met_at self.new.order.items from }
        ensures kept { (at : ℕ) → 0 < met_at self.old.order.items at → 0 < met_at self.new.order.items at }
    {
        if self.order[from] != 0 {
            return;
        }
        let first = self.count;
        let at = self.meet(parents, from);
        if at >= parents.len() {
            return;
        }
        let met = self.order[at];
        if met <= first {
            return;
        }
        self.mark(parents, at, self.count - met + 1);
    }

    // Meets one and its ancestors up to one that was met, or that isn't there, and answers that.
    fn meet(&mut self, parents: &[Option<usize>], from: usize) -> usize
        requires begins { IsWalked parents.now from self.old.count self.old.order.items self.old.order.items self.old.count from }
        ensures walked { IsWalked parents.now from self.old.count self.old.order.items self.new.order.items self.new.count result }
        ensures ended { (length parents.now ≤ result) ⊎ (0 < met_at self.new.order.items result) }
        ensures kept { self.new.loops ≡ self.old.loops }
    {
        let mut at = from;
        'steps: while at < parents.len() {
            if self.order[at] != 0 {
                return at;
            }
            self.count += 1;
            self.order[at] = self.count;
            at = parent_of(parents, at);
        }
        at
    }

    // Marks one and its ancestors, so many in all.
    fn mark(&mut self, parents: &[Option<usize>], from: usize, count: usize)
        requires all { length self.old.loops.items ≡ length parents.now }
        requires within { (steps : ℕ) → steps < count → ancestor parents.now steps from < length parents.now }
        ensures marked { AreMarked parents.now from count self.old.loops.items self.new.loops.items }
        ensures kept { (self.new.order ≡ self.old.order) × (self.new.count ≡ self.old.count) }
    {
        let mut at = from;
        for _ in 0..count {
            self.loops[at] = true;
            at = parent_of(parents, at);
        }
    }
}

// The parent of one, or the number of all where it has none.
fn parent_of(parents: &[Option<usize>], at: usize) -> usize
    requires { at < length parents.now }
    ensures { result ≡ parent_of parents.now at }
{
    match parents[at] {
        Some(parent) => parent,
        None => parents.len(),
    }
}
