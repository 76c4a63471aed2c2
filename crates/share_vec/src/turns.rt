//! How a rope is kept level. No contract speaks of it: where memory is missing, a turn is left out.
ghost use Rattle.std.specs.Prelude.{◌≡◌, ◌<◌, ◌++◌, length, IfOk, IfSome};
ghost use Rattle.std.specs.Arc.{arc_value};
ghost use Rattle.share_vec.specs.Rope.{items_of, IsProper};

use crate::rope::{Node, Rope, rope_of};
use std::alloc::{AllocError, Global};
use std::sync::Arc;

/// A leaf with so many items is split.
pub const FULL: usize = 128;

/// Two leaves side by side with so many items or fewer are made one.
const FEW: usize = 96;

/// Whether the one side of a fork has more than three times the items of the other.
pub fn is_heavy(side: usize, other: usize) -> bool {
    side / 3 > other
}

fn fork<T: Drop>(front: &Arc<Rope<T>>, back: &Arc<Rope<T>>) -> Result<Node<T>, AllocError>
    requires front { 0 < length (arc_value front.now) }
    requires back { 0 < length (arc_value back.now) }
    ensures items { IfOk result (λ node. items_of node ≡ arc_value front.now ++ arc_value back.now) }
    ensures proper { IfOk result (λ node. IsProper node) }
{
    let front = Arc::try_clone(front)?;
    let back = Arc::try_clone(back)?;
    Ok(Node::Fork(front, back))
}

/// One node of two ropes: a leaf where they are small leaves, and else a fork that is turned where one is much longer.
pub fn paired<T: Clone>(
    alloc: Global,
    front: &Arc<Rope<T>>,
    back: &Arc<Rope<T>>,
) -> Result<Node<T>, AllocError>
    requires front { 0 < length (arc_value front.now) }
    requires back { 0 < length (arc_value back.now) }
    requires clones { (x y : T) → T.is_clone x y → y ≡ x }
    ensures items { IfOk result (λ node. items_of node ≡ arc_value front.now ++ arc_value back.now) }
    ensures proper { IfOk result (λ node. IsProper node) }
{
    if let Some(leaf) = merged(alloc, front, back)? {
        return Ok(leaf);
    }
    if is_heavy(front.len(), back.len()) {
        return turned_back(alloc, front, back);
    }
    if is_heavy(back.len(), front.len()) {
        return turned_ahead(alloc, front, back);
    }
    fork(front, back)
}

fn merged<T: Clone>(
    alloc: Global,
    front: &Rope<T>,
    back: &Rope<T>,
) -> Result<Option<Node<T>>, AllocError>
    requires clones { (x y : T) → T.is_clone x y → y ≡ x }
    ensures items { IfOk result (λ leaf. IfSome leaf (λ node. items_of node ≡ front.now ++ back.now)) }
    ensures proper { IfOk result (λ leaf. IfSome leaf (λ node. IsProper node)) }
{
    if front.len().saturating_add(back.len()) > FEW {
        return Ok(None);
    }
    let Some(first) = front.leaf() else {
        return Ok(None);
    };
    let Some(second) = back.leaf() else {
        return Ok(None);
    };
    let mut items = first.to_vec(alloc)?;
    items.extend_from_slice(second)?;
    Ok(Some(Node::Leaf(items)))
}

// The end of a long front comes to the back, or half of the end.
fn turned_back<T: Drop>(
    alloc: Global,
    front: &Arc<Rope<T>>,
    back: &Arc<Rope<T>>,
) -> Result<Node<T>, AllocError>
    requires front { 0 < length (arc_value front.now) }
    requires back { 0 < length (arc_value back.now) }
    ensures items { IfOk result (λ node. items_of node ≡ arc_value front.now ++ arc_value back.now) }
    ensures proper { IfOk result (λ node. IsProper node) }
{
    let long: &Rope<T> = front;
    let Node::Fork(first, end) = &long.node else {
        return fork(front, back);
    };
    let wide: &Rope<T> = end;
    match &wide.node {
        Node::Fork(left, right) if end.len() / 2 > first.len() => {
            let front = rope_of(alloc, fork(first, left)?)?;
            let back = rope_of(alloc, fork(right, back)?)?;
            Ok(Node::Fork(front, back))
        }
        _ => {
            let back = rope_of(alloc, fork(end, back)?)?;
            fork(first, &back)
        }
    }
}

// The start of a long back comes to the front, or half of the start.
fn turned_ahead<T: Drop>(
    alloc: Global,
    front: &Arc<Rope<T>>,
    back: &Arc<Rope<T>>,
) -> Result<Node<T>, AllocError>
    requires front { 0 < length (arc_value front.now) }
    requires back { 0 < length (arc_value back.now) }
    ensures items { IfOk result (λ node. items_of node ≡ arc_value front.now ++ arc_value back.now) }
    ensures proper { IfOk result (λ node. IsProper node) }
{
    let long: &Rope<T> = back;
    let Node::Fork(start, last) = &long.node else {
        return fork(front, back);
    };
    let wide: &Rope<T> = start;
    match &wide.node {
        Node::Fork(left, right) if start.len() / 2 > last.len() => {
            let front = rope_of(alloc, fork(front, left)?)?;
            let back = rope_of(alloc, fork(right, last)?)?;
            Ok(Node::Fork(front, back))
        }
        _ => {
            let front = rope_of(alloc, fork(front, start)?)?;
            fork(&front, last)
        }
    }
}

fn halves<T: Clone>(alloc: Global, items: &[T]) -> Result<Node<T>, AllocError>
    requires some { 1 < length items.now }
    requires clones { (x y : T) → T.is_clone x y → y ≡ x }
    ensures items { IfOk result (λ node. items_of node ≡ items.now) }
    ensures proper { IfOk result (λ node. IsProper node) }
{
    let middle = items.len() / 2;
    let front = rope_of(alloc, Node::Leaf(items[..middle].to_vec(alloc)?))?;
    let back = rope_of(alloc, Node::Leaf(items[middle..].to_vec(alloc)?))?;
    Ok(Node::Fork(front, back))
}

impl<T: Clone> Rope<T> {
    /// Splits a full leaf, and brings the sides of a fork nearer to one length.
    pub fn settle(&mut self, alloc: Global)
        requires clones { (x y : T) → T.is_clone x y → y ≡ x }
        ensures { self.new ≡ self.old }
    {
        if let Ok(Some(node)) = self.settled(alloc) {
            self.node = node;
        }
    }

    fn settled(&self, alloc: Global) -> Result<Option<Node<T>>, AllocError>
        requires clones { (x y : T) → T.is_clone x y → y ≡ x }
        ensures items { IfOk result (λ better. IfSome better (λ node. items_of node ≡ self.now)) }
        ensures proper { IfOk result (λ better. IfSome better (λ node. IsProper node)) }
    {
        match &self.node {
            Node::Leaf(items) => {
                if items.len() < FULL {
                    return Ok(None);
                }
                Ok(Some(halves(alloc, items)?))
            }
            Node::Fork(front, back) => {
                if self.count > FEW
                    && !is_heavy(front.len(), back.len())
                    && !is_heavy(back.len(), front.len())
                {
                    return Ok(None);
                }
                Ok(Some(paired(alloc, front, back)?))
            }
        }
    }
}
