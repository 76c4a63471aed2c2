//! The list.
ghost use Rattle.std.specs.Prelude.{◌≡◌, ◌+◌, ◌<◌, ◌≤◌, [], ◌++◌, length, drop, IfOk, IfErr, OnOk, OnErr, Some, slice_get, slice_set, insert, remove};
ghost use Rattle.std.specs.List.{between, splice};
ghost use Rattle.std.specs.Arc.{arc_value};

use crate::edits;
use crate::iter::Iter;
use crate::joins::{before, behind, build, spliced};
use crate::rope::{Node, Rope, rope_of};
use std::alloc::{AllocError, Global};
use std::marker::Model;
use std::sync::Arc;

/// A list that is shared without copying its items: what is done to the one never shows in the other.
///
/// Its items lie in leaves of up to 128 in a balanced tree, and lists that were shared have their leaves in common. A
/// change goes down one path of the tree, and copies what other lists have too on that path: one leaf with its items,
/// and the forks above it. So items should be cheap to clone, as an `Arc` is.
#[derive(Drop)]
pub struct ShareVec<T> {
    alloc: Global,
    root: Option<Arc<Rope<T>>>,
}

impl<T> Model for ShareVec<T> {
    ghost use Rattle.std.specs.Prelude.{List};
    ghost use Rattle.std.specs.Coded.{coded_list};

    ghost Value = { List T };

    ghost coded = { coded_list T.code };

    ghost use Rattle.share_vec.specs.Rope.{list_of};

    ghost view = { λ list. list_of list.root };
}

impl<T> ShareVec<T> {
    /// The empty list. It takes no memory.
    pub fn new(alloc: Global) -> ShareVec<T>
        ensures { result ≡ [] }
    {
        ShareVec { alloc, root: None }
    }

    /// How many items there are. It takes no memory.
    pub fn len(&self) -> usize
        ensures { result ≡ length self.now }
    {
        match &self.root {
            None => 0,
            Some(root) => root.len(),
        }
    }

    /// The item at a place, counted from 0. It takes no memory.
    pub fn get(&self, at: usize) -> &T
        requires in_range { at < length self.now }
        ensures { slice_get self.now at ≡ Some result.now }
    {
        match &self.root {
            None => unreachable!(),
            Some(root) => root.get(at),
        }
    }

    /// A list of the same items, which has the leaves in common with this one. It takes no memory, and is refused only
    /// where a count of owners is at its end.
    pub fn share(&self) -> Result<ShareVec<T>, AllocError>
        ensures { IfOk result (λ list. list ≡ self.now) }
    {
        let root = match &self.root {
            None => None,
            Some(root) => Some(Arc::try_clone(root)?),
        };
        Ok(ShareVec {
            alloc: self.alloc,
            root,
        })
    }

    /// Goes over the items in order. It takes no memory.
    pub fn iter(&self) -> Iter<T>
        ensures { result ≡ self.now }
    {
        Iter::new(self)
    }

    // The items from a place on that stand in one leaf.
    pub(crate) fn rest(&self, at: usize) -> &[T]
        requires { at < length self.now }
        ensures some { 0 < length result.now }
        ensures front { drop at self.now ≡ result.now ++ drop (at + length result.now) self.now }
    {
        match &self.root {
            None => unreachable!(),
            Some(root) => root.rest(at),
        }
    }
}

impl<T: Drop> ShareVec<T> {
    /// The list of these items. Each is moved once.
    pub fn from_list(alloc: Global, mut items: Vec<T>) -> Result<ShareVec<T>, AllocError>
        ensures { IfOk result (λ list. list ≡ items.items) }
    {
        let count = items.len();
        let root = build(alloc, &mut items, count)?;
        Ok(ShareVec {
            alloc,
            root: Some(root),
        })
    }

    // The tree of the items, of which an empty list has none.
    fn rope(&self) -> Result<Arc<Rope<T>>, AllocError>
        ensures { IfOk result (λ rope. arc_value rope ≡ self.now) }
    {
        match &self.root {
            None => rope_of(self.alloc, Node::Leaf(Vec::new(self.alloc))),
            Some(root) => Arc::try_clone(root),
        }
    }
}

/// A clone is a shared list.
impl<T: Drop> Clone for ShareVec<T> {
    ghost is_clone = { λ list copy. copy ≡ list };

    fn clone(&self) -> Result<ShareVec<T>, AllocError> {
        self.share()
    }
}

impl<T: Clone> ShareVec<T> {
    /// Puts an item in before the place, counted from 0, or at the end. For want of memory the item comes back.
    pub fn insert(&mut self, at: usize, item: T) -> Result<(), T>
        requires in_range { at ≤ length self.old }
        requires clones { (x y : T) → T.is_clone x y → y ≡ x }
        ensures ok { OnOk result (self.new ≡ insert self.old at item) }
        ensures item_returned { IfErr result (λ back. back ≡ item) }
        ensures err { OnErr result (self.new ≡ self.old) }
    {
        let alloc = self.alloc;
        if self.root.is_none() {
            let Ok(root) = rope_of(alloc, Node::Leaf(Vec::new(alloc))) else {
                return Err(item);
            };
            self.root = Some(root);
        }
        match &mut self.root {
            None => unreachable!(),
            Some(root) => edits::insert(alloc, root, at, item),
        }
    }

    /// Takes the item at the place, counted from 0, out of the list.
    pub fn remove(&mut self, at: usize) -> Result<T, AllocError>
        requires in_range { at < length self.old }
        requires clones { (x y : T) → T.is_clone x y → y ≡ x }
        ensures item { IfOk result (λ was. slice_get self.old at ≡ Some was) }
        ensures ok { OnOk result (self.new ≡ remove self.old at) }
        ensures err { OnErr result (self.new ≡ self.old) }
    {
        let alloc = self.alloc;
        match &mut self.root {
            None => unreachable!(),
            Some(root) => edits::remove(alloc, root, at),
        }
    }

    /// Puts an item in the place of that at the place, counted from 0, and answers the old one. For want of memory the
    /// new item comes back.
    pub fn replace(&mut self, at: usize, item: T) -> Result<T, T>
        requires in_range { at < length self.old }
        requires clones { (x y : T) → T.is_clone x y → y ≡ x }
        ensures item { IfOk result (λ was. slice_get self.old at ≡ Some was) }
        ensures ok { OnOk result (self.new ≡ slice_set self.old at item) }
        ensures item_returned { IfErr result (λ back. back ≡ item) }
        ensures err { OnErr result (self.new ≡ self.old) }
    {
        let alloc = self.alloc;
        match &mut self.root {
            None => unreachable!(),
            Some(root) => edits::replace(alloc, root, at, item),
        }
    }

    /// Puts the items in the place of those from `from` up to `to`, counted from 0, and answers what was there.
    ///
    /// Leaves that lie whole in the range or among the items are taken over as they are.
    #[tactic(auto, using(std::proofs::lemmas::Slice::between_is))]
    pub fn splice(
        &mut self,
        from: usize,
        to: usize,
        items: &ShareVec<T>,
    ) -> Result<ShareVec<T>, AllocError>
        requires in_order { from ≤ to }
        requires in_range { to ≤ length self.old }
        requires clones { (x y : T) → T.is_clone x y → y ≡ x }
        ensures removed { IfOk result (λ removed. removed ≡ between from to self.old) }
        ensures ok { OnOk result (self.new ≡ splice self.old from to items.now) }
        ensures err { OnErr result (self.new ≡ self.old) }
    {
        let alloc = self.alloc;
        let root = self.rope()?;
        let removed = behind(alloc, &before(alloc, &root, to)?, from)?;
        let root = spliced(alloc, &root, from, to, &items.rope()?)?;
        self.root = Some(root);
        Ok(ShareVec {
            alloc,
            root: Some(removed),
        })
    }
}
