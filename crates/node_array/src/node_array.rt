//! The node array.
ghost use Rattle.std.specs.Prelude.{◌≡◌, ◌<◌, ◌≤◌, [], length, take, IfOk, OnOk, OnErr, Some, slice_get, position, List};
ghost use Rattle.std.specs.List.{between, splice};
ghost use Rattle.doc_model.specs.declared.block.Block.{Block};
ghost use Rattle.node_array.specs.Rows.{rows_of};
ghost use Rattle.node_array.specs.Places.{is_par};
ghost use Rattle.node_array.specs.Containers.{containers_of};
ghost use Rattle.node_array.specs.Held.{Holds, plain_rows, placed_rows, depth_behind};

use crate::placed::{Placed, around, next, tag};
use crate::row::Row;
use doc_model::{List, ParId};
use std::alloc::{AllocError, Global};
use std::marker::Model;
use tagged_list::{Tag, Tagged, TaggedList};

/// The body of a document as rows, seen as the list of its blocks.
///
/// A paragraph is found by its number without going over the rows. A shared array has its rows in common with the first,
/// and a change of the one never shows in the other.
#[derive(Drop)]
pub struct NodeArray {
    alloc: Global,
    rows: TaggedList<Placed>,
}

impl Model for NodeArray {
    ghost use Rattle.std.specs.Prelude.{◌≡◌, List};
    ghost use Rattle.doc_model.specs.declared.block.Block.{Block};

    ghost Value = { List Block };

    ghost use Rattle.doc_model.specs.contracts.block.Block as block;
    ghost use Rattle.std.specs.Coded.{coded_list};

    ghost coded = { coded_list block.the_row.coded };

    ghost use Rattle.node_array.specs.Rows.{rows_of};
    ghost use Rattle.node_array.specs.Body.{body_of};
    ghost use Rattle.node_array.specs.Held.{Holds, plain_rows};

    ghost view = { λ array. body_of (plain_rows array.rows) };

    ghost invariant = { λ array. Holds array.rows };
}

impl NodeArray {
    /// No rows, which stand for a body without blocks. It takes no memory.
    pub fn new(alloc: Global) -> NodeArray
        ensures { result ≡ [] }
    {
        NodeArray {
            alloc,
            rows: TaggedList::new(alloc),
        }
    }

    /// How many rows there are. It takes no memory.
    pub fn len(&self) -> usize
        ensures { result ≡ length (rows_of self.now) }
    {
        self.rows.len()
    }

    /// The row at a place, counted from 0. It takes no memory.
    pub fn row(&self, at: usize) -> &Row
        requires in_range { at < length (rows_of self.now) }
        ensures { slice_get (rows_of self.now) at ≡ Some result.now }
    {
        &self.rows.get(at).item().row
    }

    /// The place of the row of the paragraph with this number, if it has one. It takes no memory, and costs the square of
    /// the logarithm of the number of rows.
    ///
    /// Where more paragraphs have the number, which is so in no valid document, it is the first one's.
    pub fn row_of(&self, par: ParId) -> Option<usize>
        ensures { result ≡ position (is_par par) (rows_of self.now) }
    {
        self.rows.first(Tag::Number(par.0))
    }

    /// The place of the innermost Start or NoteText row round the row at a place, both counted from 0, or none where it
    /// stands in the body itself. An End row stands where its Start or NoteText row does. It takes no memory, and costs the
    /// square of the logarithm of the number of rows.
    pub fn container(&self, at: usize) -> Option<usize>
        requires in_range { at < length (rows_of self.now) }
        ensures { slice_get (containers_of self.now) at ≡ Some result }
    {
        let placed = self.rows.get(at).item();
        let around = around(placed.depth, &placed.row);
        if around == 0 {
            return None;
        }
        self.rows.last_before(Tag::Depth(around - 1), at)
    }

    /// An array of the same rows, which has all in common with this one. It takes no memory, and is refused only where a
    /// count of owners is at its end.
    pub fn share(&self) -> Result<NodeArray, AllocError>
        ensures { IfOk result (λ array. array ≡ self.now) }
    {
        let rows = self.rows.share()?;
        Ok(NodeArray {
            alloc: self.alloc,
            rows,
        })
    }

    /// Puts copies of the rows in the place of those from `from` up to `to`, counted from 0, and answers copies of what
    /// was there. The rows that result have to stand for a body.
    pub fn splice_rows(
        &mut self,
        from: usize,
        to: usize,
        rows: &[Row],
    ) -> Result<List<Row>, AllocError>
        requires in_order { from ≤ to }
        requires in_range { to ≤ length (rows_of self.old) }
        requires stands { (body : List Block) × (splice (rows_of self.old) from to rows.now ≡ rows_of body) }
        ensures removed { IfOk result (λ removed. removed ≡ between from to (rows_of self.old)) }
        ensures ok { OnOk result (rows_of self.new ≡ splice (rows_of self.old) from to rows.now) }
        ensures err { OnErr result (self.new ≡ self.old) }
    {
        let removed = copied(self.alloc, &self.rows, from, to)?;
        let depth = depth_at(&self.rows, from);
        let placed = placed(self.alloc, depth, rows)?;
        self.rows.splice(from, to, &placed)?;
        Ok(removed)
    }
}

// Copies of the rows of a range.
fn copied(
    alloc: Global,
    rows: &TaggedList<Placed>,
    from: usize,
    to: usize,
) -> Result<List<Row>, AllocError>
    requires in_order { from ≤ to }
    requires in_range { to ≤ length rows.now }
    ensures { IfOk result (λ copies. copies ≡ between from to (plain_rows rows.now)) }
{
    let mut copies = Vec::new(alloc);
    for at in from..to {
        copies.push(rows.get(at).item().row.copy()?)?;
    }
    Ok(List::from_list(copies))
}

// How many sections and notes are open before a place.
fn depth_at(rows: &TaggedList<Placed>, at: usize) -> u32
    requires holds { Holds rows.now }
    requires in_range { at ≤ length rows.now }
    ensures { result ≡ depth_behind 0 (take at (plain_rows rows.now)) }
{
    if at == rows.len() {
        return 0;
    }
    rows.get(at).item().depth
}

// Copies of rows with their tags and depths, where so many sections and notes are open before the first.
fn placed(alloc: Global, depth: u32, rows: &[Row]) -> Result<Vec<Tagged<Placed>>, AllocError>
    ensures { IfOk result (λ placed. placed.items ≡ placed_rows depth rows.now) }
{
    let mut placed = Vec::with_capacity(alloc, rows.len())?;
    let mut depth = depth;
    for row in rows {
        let copy = row.copy()?;
        let tag = tag(depth, row);
        placed.push(Tagged::new(alloc, tag, Placed { depth, row: copy })?)?;
        depth = next(depth, row)?;
    }
    Ok(placed)
}
