//! Changes of one item in place. A node that another list has too is copied first, with its own items alone.
ghost use Rattle.std.specs.Prelude.{◌≡◌, ◌<◌, ◌≤◌, length, IfOk, IfErr, IfSome, IfNone, OnOk, OnErr, slice_set, insert, remove, slice_index_or};
ghost use Rattle.std.specs.Arc.{arc_value};
ghost use Rattle.share_vec.specs.Rope.{items_of, IsProper, IsWideAt};

use crate::rope::{Node, Rope};
use std::alloc::{AllocError, Global};
use std::mem;
use std::sync::Arc;

fn copy<T: Clone>(alloc: Global, node: &Node<T>) -> Result<Node<T>, AllocError>
    requires proper { IsProper node.now }
    requires clones { (x y : T) → T.is_clone x y → y ≡ x }
    ensures items { IfOk result (λ copy. items_of copy ≡ items_of node.now) }
    ensures proper { IfOk result (λ copy. IsProper copy) }
{
    match node {
        Node::Leaf(items) => Ok(Node::Leaf(items.to_vec(alloc)?)),
        Node::Fork(front, back) => {
            let front = Arc::try_clone(front)?;
            let back = Arc::try_clone(back)?;
            Ok(Node::Fork(front, back))
        }
    }
}

/// Puts a copy in the place of a node that has other owners.
fn own<T: Clone>(alloc: Global, rope: &mut Arc<Rope<T>>) -> Result<(), AllocError>
    requires clones { (x y : T) → T.is_clone x y → y ≡ x }
    ensures { arc_value rope.new ≡ arc_value rope.old }
{
    if Arc::strong_count(rope) != 1 {
        let shared: &Rope<T> = rope;
        let count = shared.count;
        let node = copy(alloc, &shared.node)?;
        *rope = Arc::new(alloc, Rope { count, node })?;
    }
    Ok(())
}

/// Replaces the item at a place, and answers the old one.
#[cycle(replaced)]
#[tactic(auto, using(crate::proofs::Steps::edits))]
pub fn replace<T: Clone>(alloc: Global, rope: &mut Arc<Rope<T>>, at: usize, item: T) -> Result<T, T>
    requires in_range { at < length (arc_value rope.old) }
    requires clones { (x y : T) → T.is_clone x y → y ≡ x }
    ensures ok { IfOk result (λ was. was ≡ slice_index_or (arc_value rope.old) at was) }
    ensures after { OnOk result (arc_value rope.new ≡ slice_set (arc_value rope.old) at item) }
    ensures err { IfErr result (λ back. back ≡ item) }
    ensures kept { OnErr result (arc_value rope.new ≡ arc_value rope.old) }
{
    if let Err(AllocError) = own(alloc, rope) {
        return Err(item);
    }
    match Arc::get_mut(rope) {
        None => Err(item),
        Some(own) => own.replace(alloc, at, item),
    }
}

/// Puts an item in before a place.
#[cycle(inserted)]
#[tactic(auto, using(crate::proofs::Steps::edits))]
pub fn insert<T: Clone>(alloc: Global, rope: &mut Arc<Rope<T>>, at: usize, item: T) -> Result<(), T>
    requires in_range { at ≤ length (arc_value rope.old) }
    requires clones { (x y : T) → T.is_clone x y → y ≡ x }
    ensures after { OnOk result (arc_value rope.new ≡ insert (arc_value rope.old) at item) }
    ensures err { IfErr result (λ back. back ≡ item) }
    ensures kept { OnErr result (arc_value rope.new ≡ arc_value rope.old) }
{
    if let Err(AllocError) = own(alloc, rope) {
        return Err(item);
    }
    match Arc::get_mut(rope) {
        None => Err(item),
        Some(own) => {
            own.insert(alloc, at, item)?;
            own.settle(alloc);
            Ok(())
        }
    }
}

/// Takes the item at a place out.
#[cycle(removed)]
#[tactic(auto, using(crate::proofs::Steps::edits))]
pub fn remove<T: Clone>(alloc: Global, rope: &mut Arc<Rope<T>>, at: usize) -> Result<T, AllocError>
    requires in_range { at < length (arc_value rope.old) }
    requires clones { (x y : T) → T.is_clone x y → y ≡ x }
    ensures ok { IfOk result (λ was. was ≡ slice_index_or (arc_value rope.old) at was) }
    ensures after { OnOk result (arc_value rope.new ≡ remove (arc_value rope.old) at) }
    ensures kept { OnErr result (arc_value rope.new ≡ arc_value rope.old) }
{
    own(alloc, rope)?;
    match Arc::get_mut(rope) {
        None => Err(AllocError),
        Some(own) => {
            let item = own.remove(alloc, at)?;
            own.settle(alloc);
            Ok(item)
        }
    }
}

// Where the item at a place is alone in its side of a fork: the item, and a copy of the other side, which then is left.
#[tactic(auto, using(crate::proofs::Steps::edits))]
fn lone<T: Clone>(
    alloc: Global,
    node: &Node<T>,
    at: usize,
) -> Result<Option<(T, Node<T>)>, AllocError>
    requires in_range { at < length (items_of node.now) }
    requires proper { IsProper node.now }
    requires clones { (x y : T) → T.is_clone x y → y ≡ x }
    ensures item { IfOk result (λ lone. IfSome lone (λ it. it.0 ≡ slice_index_or (items_of node.now) at it.0)) }
    ensures items { IfOk result (λ lone. IfSome lone (λ it. items_of it.1 ≡ remove (items_of node.now) at)) }
    ensures proper { IfOk result (λ lone. IfSome lone (λ it. IsProper it.1)) }
    ensures wide { IfOk result (λ lone. IfNone lone (IsWideAt node.now at)) }
{
    let Node::Fork(front, back) = node else {
        return Ok(None);
    };
    let first = front.len();
    if at < first {
        if first > 1 {
            return Ok(None);
        }
        return Ok(Some(taken(alloc, front, back)?));
    }
    if back.len() > 1 {
        return Ok(None);
    }
    Ok(Some(taken(alloc, back, front)?))
}

// A clone of the first item of a side, and a copy of the other side.
fn taken<T: Clone>(
    alloc: Global,
    side: &Rope<T>,
    other: &Rope<T>,
) -> Result<(T, Node<T>), AllocError>
    requires some { 0 < length side.now }
    requires clones { (x y : T) → T.is_clone x y → y ≡ x }
    ensures item { IfOk result (λ taken. taken.0 ≡ slice_index_or side.now 0 taken.0) }
    ensures items { IfOk result (λ taken. items_of taken.1 ≡ other.now) }
    ensures proper { IfOk result (λ taken. IsProper taken.1) }
{
    let item = side.get(0).clone()?;
    let node = copy(alloc, &other.node)?;
    Ok((item, node))
}

impl<T: Clone> Rope<T> {
    #[cycle(replaced)]
    #[tactic(auto, using(crate::proofs::Steps::edits))]
    fn replace(&mut self, alloc: Global, at: usize, item: T) -> Result<T, T>
        requires in_range { at < length self.old }
        requires clones { (x y : T) → T.is_clone x y → y ≡ x }
        ensures ok { IfOk result (λ was. was ≡ slice_index_or self.old at was) }
        ensures after { OnOk result (self.new ≡ slice_set self.old at item) }
        ensures err { IfErr result (λ back. back ≡ item) }
        ensures kept { OnErr result (self.new ≡ self.old) }
    {
        match &mut self.node {
            Node::Leaf(items) => {
                return Ok(mem::replace(&mut items[at], item));
            }
            Node::Fork(front, back) => {
                let first = front.len();
                if at < first {
                    return replace(alloc, front, at, item);
                }
                return replace(alloc, back, at - first, item);
            }
        }
    }

    #[cycle(inserted)]
    #[tactic(auto, using(crate::proofs::Steps::edits))]
    fn insert(&mut self, alloc: Global, at: usize, item: T) -> Result<(), T>
        requires in_range { at ≤ length self.old }
        requires clones { (x y : T) → T.is_clone x y → y ≡ x }
        ensures after { OnOk result (self.new ≡ insert self.old at item) }
        ensures err { IfErr result (λ back. back ≡ item) }
        ensures kept { OnErr result (self.new ≡ self.old) }
    {
        let Some(count) = self.count.checked_add(1) else {
            return Err(item);
        };
        match &mut self.node {
            Node::Leaf(items) => {
                if let Err(refused) = items.insert(at, item) {
                    return Err(refused.value);
                }
                self.count = count;
                return Ok(());
            }
            Node::Fork(front, back) => {
                let first = front.len();
                if at <= first {
                    if let Err(item) = insert(alloc, front, at, item) {
                        return Err(item);
                    }
                    self.count = count;
                    return Ok(());
                }
                if let Err(item) = insert(alloc, back, at - first, item) {
                    return Err(item);
                }
                self.count = count;
                return Ok(());
            }
        }
    }

    #[cycle(removed)]
    #[tactic(auto, using(crate::proofs::Steps::edits))]
    fn remove(&mut self, alloc: Global, at: usize) -> Result<T, AllocError>
        requires in_range { at < length self.old }
        requires clones { (x y : T) → T.is_clone x y → y ≡ x }
        ensures ok { IfOk result (λ was. was ≡ slice_index_or self.old at was) }
        ensures after { OnOk result (self.new ≡ remove self.old at) }
        ensures kept { OnErr result (self.new ≡ self.old) }
    {
        let count = self.count - 1;
        if let Some((item, node)) = lone(alloc, &self.node, at)? {
            self.node = node;
            self.count = count;
            return Ok(item);
        }
        match &mut self.node {
            Node::Leaf(items) => {
                let item = items.remove(at);
                self.count = count;
                return Ok(item);
            }
            Node::Fork(front, back) => {
                let first = front.len();
                if at < first {
                    let item = remove(alloc, front, at)?;
                    self.count = count;
                    return Ok(item);
                }
                let item = remove(alloc, back, at - first)?;
                self.count = count;
                return Ok(item);
            }
        }
    }
}
