//! New ropes of old ones: whole sides are taken over, and what was there stays as it is.
ghost use Rattle.std.specs.Prelude.{◌≡◌, ◌≤◌, ◌++◌, length, take, drop, vec_len, IfOk, IfSome, OnOk};
ghost use Rattle.std.specs.List.{splice};
ghost use Rattle.std.specs.Arc.{arc_value};

use crate::rope::{Node, Rope, rope_of};
use crate::turns::{FULL, is_heavy, paired};
use std::alloc::{AllocError, Global};
use std::sync::Arc;

/// The items of one rope and then those of another.
pub fn join<T: Clone>(
    alloc: Global,
    front: &Arc<Rope<T>>,
    back: &Arc<Rope<T>>,
) -> Result<Arc<Rope<T>>, AllocError>
    requires clones { (x y : T) → T.is_clone x y → y ≡ x }
    ensures { IfOk result (λ rope. arc_value rope ≡ arc_value front.now ++ arc_value back.now) }
{
    if front.len() == 0 {
        return Arc::try_clone(back);
    }
    if back.len() == 0 {
        return Arc::try_clone(front);
    }
    let first: &Rope<T> = front;
    if let Node::Fork(start, end) = &first.node
        && is_heavy(front.len(), back.len())
    {
        let end = join(alloc, end, back)?;
        return rope_of(alloc, paired(alloc, start, &end)?);
    }
    let last: &Rope<T> = back;
    if let Node::Fork(start, end) = &last.node
        && is_heavy(back.len(), front.len())
    {
        let start = join(alloc, front, start)?;
        return rope_of(alloc, paired(alloc, &start, end)?);
    }
    rope_of(alloc, paired(alloc, front, back)?)
}

/// The items before a place.
#[tactic(auto, using(crate::proofs::Steps::parts))]
pub fn before<T: Clone>(
    alloc: Global,
    rope: &Arc<Rope<T>>,
    at: usize,
) -> Result<Arc<Rope<T>>, AllocError>
    requires within { at ≤ length (arc_value rope.now) }
    requires clones { (x y : T) → T.is_clone x y → y ≡ x }
    ensures { IfOk result (λ front. arc_value front ≡ take at (arc_value rope.now)) }
{
    if at == rope.len() {
        return Arc::try_clone(rope);
    }
    let whole: &Rope<T> = rope;
    match &whole.node {
        Node::Leaf(items) => rope_of(alloc, Node::Leaf(items[..at].to_vec(alloc)?)),
        Node::Fork(front, back) => {
            let first = front.len();
            if at <= first {
                return before(alloc, front, at);
            }
            let end = before(alloc, back, at - first)?;
            join(alloc, front, &end)
        }
    }
}

/// The items from a place on.
#[tactic(auto, using(crate::proofs::Steps::parts))]
pub fn behind<T: Clone>(
    alloc: Global,
    rope: &Arc<Rope<T>>,
    at: usize,
) -> Result<Arc<Rope<T>>, AllocError>
    requires within { at ≤ length (arc_value rope.now) }
    requires clones { (x y : T) → T.is_clone x y → y ≡ x }
    ensures { IfOk result (λ back. arc_value back ≡ drop at (arc_value rope.now)) }
{
    if at == 0 {
        return Arc::try_clone(rope);
    }
    let whole: &Rope<T> = rope;
    match &whole.node {
        Node::Leaf(items) => rope_of(alloc, Node::Leaf(items[at..].to_vec(alloc)?)),
        Node::Fork(front, back) => {
            let first = front.len();
            if first <= at {
                return behind(alloc, back, at - first);
            }
            let start = behind(alloc, front, at)?;
            join(alloc, &start, back)
        }
    }
}

/// The rope with other items in the place of a range. Where the range lies in one leaf, one leaf takes its place.
#[tactic(auto, using(crate::proofs::Steps::splices))]
pub fn spliced<T: Clone>(
    alloc: Global,
    rope: &Arc<Rope<T>>,
    from: usize,
    to: usize,
    items: &Arc<Rope<T>>,
) -> Result<Arc<Rope<T>>, AllocError>
    requires in_order { from ≤ to }
    requires within { to ≤ length (arc_value rope.now) }
    requires clones { (x y : T) → T.is_clone x y → y ≡ x }
    ensures { IfOk result (λ new. arc_value new ≡ splice (arc_value rope.now) from to (arc_value items.now)) }
{
    let whole: &Rope<T> = rope;
    match &whole.node {
        Node::Leaf(cells) => {
            if let Some(leaf) = spliced_leaf(alloc, cells, from, to, items)? {
                return rope_of(alloc, Node::Leaf(leaf));
            }
        }
        Node::Fork(front, back) => {
            let first = front.len();
            if to <= first {
                let front = spliced(alloc, front, from, to, items)?;
                return join(alloc, &front, back);
            }
            if first <= from {
                let back = spliced(alloc, back, from - first, to - first, items)?;
                return join(alloc, front, &back);
            }
        }
    }
    let front = before(alloc, rope, from)?;
    let front = join(alloc, &front, items)?;
    let back = behind(alloc, rope, to)?;
    join(alloc, &front, &back)
}

// Clones of more items at the end.
fn extend<T: Clone>(items: &mut Vec<T>, more: &[T]) -> Result<(), AllocError>
    requires clones { (x y : T) → T.is_clone x y → y ≡ x }
    ensures { OnOk result (items.new.items ≡ items.old.items ++ more.now) }
{
    items.extend_from_slice(more)
}

#[tactic(auto, using(crate::proofs::Steps::splices))]
fn spliced_leaf<T: Clone>(
    alloc: Global,
    cells: &[T],
    from: usize,
    to: usize,
    items: &Rope<T>,
) -> Result<Option<Vec<T>>, AllocError>
    requires in_order { from ≤ to }
    requires within { to ≤ length cells.now }
    requires clones { (x y : T) → T.is_clone x y → y ≡ x }
    ensures { IfOk result (λ leaf. IfSome leaf (λ new. new.items ≡ splice cells.now from to items.now)) }
{
    let stay = cells.len() - (to - from);
    if stay.saturating_add(items.len()) >= FULL {
        return Ok(None);
    }
    let Some(items) = items.leaf() else {
        return Ok(None);
    };
    let mut leaf = cells[..from].to_vec(alloc)?;
    extend(&mut leaf, items)?;
    extend(&mut leaf, &cells[to..])?;
    Ok(Some(leaf))
}

/// The rope of the last items of a vector, which are moved out of it, each once.
pub fn build<T: Drop>(
    alloc: Global,
    items: &mut Vec<T>,
    count: usize,
) -> Result<Arc<Rope<T>>, AllocError>
    requires within { count ≤ vec_len items.old }
    ensures items { IfOk result (λ rope. items.old.items ≡ items.new.items ++ arc_value rope) }
    ensures len { IfOk result (λ rope. length (arc_value rope) ≡ count) }
{
    if count < FULL {
        let start = items.len() - count;
        return rope_of(alloc, Node::Leaf(items.split_off(start)?));
    }
    let half = count / 2;
    let back = build(alloc, items, count - half)?;
    let front = build(alloc, items, half)?;
    rope_of(alloc, Node::Fork(front, back))
}
