//! The gap buffer.
ghost use Rattle.std.specs.Prelude.{◌≡◌, ◌≤◌, [], ◌++◌, length, IfOk, OnOk, OnErr};
ghost use Rattle.std.specs.List.{between, splice};

use crate::gap::{fillers, make_room, move_gap, take_out, write_clones};
use std::alloc::{AllocError, Global};
use std::default::MadeWith;
use std::marker::Model;

/// A list of items that is edited near one place: a gap buffer.
///
/// Its items lie in one `Vec` with a gap at the place of the last edit. An edit moves the gap to its own place and
/// writes into it, so it costs the distance to the last edit and the items that come and go. Now and then the gap is
/// widened, which costs the list's length, as where a `Vec` grows.
/// The gap is filled with values that nobody reads, which `made_with` makes without memory.
#[derive(Debug, Drop)]
pub struct RunText<T> {
    cells: Vec<T>,
    start: usize,
    end: usize,
}

impl<T> Model for RunText<T> {
    ghost use Rattle.std.specs.Prelude.{List, ◌≤◌, vec_len};
    ghost use Rattle.std.specs.List.{remove_range};
    ghost use Rattle.std.specs.Coded.{coded_list};

    ghost Value = { List T };

    ghost coded = { coded_list T.code };

    // The gap lies from `start` to `end`.
    ghost view = { λ text. remove_range text.cells.items text.start text.end };

    ghost invariant = { λ text. (text.start ≤ text.end) × (text.end ≤ vec_len text.cells) };
}

impl<T> RunText<T> {
    /// The empty list. It takes no memory.
    pub fn new(alloc: Global) -> RunText<T>
        ensures { result ≡ [] }
    {
        RunText {
            cells: Vec::new(alloc),
            start: 0,
            end: 0,
        }
    }

    /// How many items there are. It takes no memory.
    pub fn len(&self) -> usize
        ensures { result ≡ length self.now }
    {
        self.start + (self.cells.len() - self.end)
    }

    /// The items from `from` up to `to`, counted from 0, lent as two pieces, of which either may be empty.
    ///
    /// It takes no memory and copies nothing.
    pub fn slice(&self, from: usize, to: usize) -> (&[T], &[T])
        requires in_order { from ≤ to }
        requires in_range { to ≤ length self.now }
        ensures { result.0.now ++ result.1.now ≡ between from to self.now }
    {
        let start = self.start;
        let width = self.end - start;
        let front = &self.cells[from.min(start)..to.min(start)];
        let back = &self.cells[width + from.max(start)..width + to.max(start)];
        (front, back)
    }
}

impl<T: Clone + MadeWith<Global>> RunText<T> {
    /// Puts clones of the items in the place of those from `from` up to `to`, counted from 0, and answers the items
    /// that were there.
    pub fn splice(&mut self, from: usize, to: usize, items: &[T]) -> Result<Vec<T>, AllocError>
        requires in_order { from ≤ to }
        requires in_range { to ≤ length self.old }
        requires clones { (x y : T) → T.is_clone x y → y ≡ x }
        ensures removed { IfOk result (λ removed. removed.items ≡ between from to self.old) }
        ensures ok { OnOk result (self.new ≡ splice self.old from to items.now) }
        ensures err { OnErr result (self.new ≡ self.old) }
    {
        // Until all memory is found, only the gap is written to, so that an error leaves the list.
        let width = self.end - self.start;
        move_gap(&mut self.cells, self.start, from, width);
        self.start = from;
        self.end = from + width;
        let count = to - from;
        let mut removed = fillers(*self.cells.allocator(), count)?;
        self.end = make_room(&mut self.cells, from, self.end, items.len())?;
        write_clones(&mut self.cells, from, items)?;
        take_out(&mut self.cells, self.end, &mut removed);
        self.start = from + items.len();
        self.end += count;
        Ok(removed)
    }
}

impl<T: Clone> Clone for RunText<T> {
    ghost use Rattle.std.specs.Prelude.{◌≡◌};

    // Where clones of items equal them, the clone is the same list.
    ghost is_clone = { λ text clone. ((x y : T) → T.is_clone x y → y ≡ x) → clone ≡ text };

    /// It clones the items alone, and its gap is empty.
    fn clone(&self) -> Result<RunText<T>, AllocError> {
        let len = self.len();
        let (first, second) = self.slice(0, len);
        let mut cells = Vec::with_capacity(*self.cells.allocator(), len)?;
        cells.extend_with_clones(first)?;
        cells.extend_with_clones(second)?;
        Ok(RunText {
            cells,
            start: 0,
            end: 0,
        })
    }
}
