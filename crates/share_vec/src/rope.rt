//! The tree that the items of a list stand in.
ghost use Rattle.std.specs.Prelude.{◌≡◌, ◌+◌, ◌<◌, ◌++◌, length, drop, IfOk, IfSome, slice_index_or};
ghost use Rattle.std.specs.Arc.{arc_value};
ghost use Rattle.share_vec.specs.Rope.{items_of, IsProper};

use std::alloc::{AllocError, Global};
use std::marker::Model;
use std::sync::Arc;

/// A binary tree of items with their count. Its sides are shared between lists, and changed where only one has them.
#[cycle(rope)]
#[derive(Drop)]
pub struct Rope<T> {
    pub count: usize,
    pub node: Node<T>,
}

/// The items themselves, or what stands before and what stands behind.
#[cycle(rope)]
#[derive(Drop)]
pub enum Node<T> {
    Leaf(Vec<T>),
    Fork(Arc<Rope<T>>, Arc<Rope<T>>),
}

impl<T> Model for Rope<T> {
    ghost use Rattle.std.specs.Prelude.{◌≡◌, List, length};
    ghost use Rattle.std.specs.Coded.{coded_list};

    ghost Value = { List T };

    ghost coded = { coded_list T.code };

    ghost use Rattle.share_vec.specs.Rope.{items_of, IsProper};

    ghost view = { λ rope. items_of rope.node };

    ghost invariant = { λ rope. (rope.count ≡ length (items_of rope.node)) × IsProper rope.node };

    ghost size = { length };

    ghost use Rattle.share_vec.specs.Depth.{depth_le-length};

    ghost size_decreases = { λ a h. depth_le-length a.node h.1 };
}

/// The rope of one node. Its count may pass the largest number, which is told as want of memory.
pub fn rope_of<T: Drop>(alloc: Global, node: Node<T>) -> Result<Arc<Rope<T>>, AllocError>
    requires { IsProper node }
    ensures { IfOk result (λ rope. arc_value rope ≡ items_of node) }
{
    let count = match &node {
        Node::Leaf(items) => items.len(),
        Node::Fork(front, back) => match front.len().checked_add(back.len()) {
            Some(count) => count,
            None => return Err(AllocError),
        },
    };
    Ok(Arc::new(alloc, Rope { count, node })?)
}

impl<T> Rope<T> {
    /// How many items there are.
    pub fn len(&self) -> usize
        ensures { result ≡ length self.now }
    {
        self.count
    }

    /// The item at a place.
    pub fn get(&self, at: usize) -> &T
        requires { at < length self.now }
        ensures { result.now ≡ slice_index_or self.now at result.now }
    {
        match &self.node {
            Node::Leaf(items) => &items[at],
            Node::Fork(front, back) => {
                let first = front.len();
                if at < first {
                    return front.get(at);
                }
                back.get(at - first)
            }
        }
    }

    /// The items, where they stand in one leaf.
    pub fn leaf(&self) -> Option<&[T]>
        ensures { IfSome result (λ items. items.now ≡ self.now) }
    {
        match &self.node {
            Node::Leaf(items) => Some(items),
            Node::Fork(..) => None,
        }
    }

    /// The items from a place on that stand in one leaf.
    #[tactic(auto, using(crate::proofs::Steps::parts))]
    pub fn rest(&self, at: usize) -> &[T]
        requires { at < length self.now }
        ensures some { 0 < length result.now }
        ensures front { drop at self.now ≡ result.now ++ drop (at + length result.now) self.now }
    {
        match &self.node {
            Node::Leaf(items) => &items[at..],
            Node::Fork(front, back) => {
                let first = front.len();
                if at < first {
                    return front.rest(at);
                }
                back.rest(at - first)
            }
        }
    }
}
