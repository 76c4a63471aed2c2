//! The list.
ghost use Rattle.std.specs.Prelude.{◌≡◌, ◌<◌, ◌≤◌, [], ◌++◌, length, take, suc, Option, IsTrue, slice_index_or, slice_set, IfOk, OnOk, OnErr, Some, slice_get, position};
ghost use Rattle.std.specs.List.{splice};
ghost use Rattle.tagged_list.specs.Last.{last_position};
ghost use Rattle.tagged_list.specs.Tags.{has_tag};
ghost use Rattle.tagged_list.specs.declared.tag.Tag.{Tag};

use crate::entry::{Entry, Tagged, has_same_tag};
use crate::keys::{gathered, key_at, keyed, place_of_key, window};
use crate::spot::Spot;
use crate::spots::{forget, place_of, remember};
use crate::tag::Tag;
use share_vec::ShareVec;
use std::alloc::{AllocError, Global};
use std::marker::Model;

/// A list that is shared without copying its items, and whose items are found by tags without going over it.
///
/// Each item has a key, and keys rise from one item to the next. The tags stand in order with the keys of their items, so
/// that an item is found by two searches by halves: for its tag, and for its key. A change gives keys to what comes in,
/// between those beside it, and where there are none left, to some items around it too. Nothing else is touched, and where
/// one item takes the place of one with the same tag, the key stays too.
#[derive(Drop)]
pub struct TaggedList<T> {
    alloc: Global,
    items: ShareVec<Entry<T>>,
    spots: ShareVec<Spot>,
}

impl<T> Model for TaggedList<T> {
    ghost use Rattle.std.specs.Prelude.{List, Option};
    ghost use Rattle.tagged_list.specs.declared.tag.Tag.{Tag};

    ghost Value = { List (Option Tag × T) };

    ghost use Rattle.tagged_list.specs.Entries.{tagged_of};
    ghost use Rattle.tagged_list.specs.Keeps.{Keeps};

    ghost view = { λ list. tagged_of list.items };

    ghost invariant = { λ list. Keeps list.items list.spots };
}

impl<T: Drop> TaggedList<T> {
    /// The empty list. It takes no memory.
    pub fn new(alloc: Global) -> TaggedList<T>
        ensures { result ≡ [] }
    {
        TaggedList {
            alloc,
            items: ShareVec::new(alloc),
            spots: ShareVec::new(alloc),
        }
    }

    /// How many items there are. It takes no memory.
    pub fn len(&self) -> usize
        ensures { result ≡ length self.now }
    {
        self.items.len()
    }

    /// The item at a place, counted from 0, with its tag. It takes no memory.
    pub fn get(&self, at: usize) -> &Tagged<T>
        requires in_range { at < length self.now }
        ensures { slice_get self.now at ≡ Some result.now }
    {
        &self.items.get(at).tagged
    }

    /// A list of the same items, which has all in common with this one. It takes no memory, and is refused only where a
    /// count of owners is at its end.
    pub fn share(&self) -> Result<TaggedList<T>, AllocError>
        ensures { IfOk result (λ list. list ≡ self.now) }
    {
        let items = self.items.share()?;
        let spots = self.spots.share()?;
        Ok(TaggedList {
            alloc: self.alloc,
            items,
            spots,
        })
    }

    /// The place of the first item with the tag, counted from 0. It takes no memory.
    pub fn first(&self, tag: Tag) -> Option<usize>
        ensures { result ≡ position (has_tag tag) self.now }
    {
        let spot = Spot::new(tag, 0);
        let place = place_of(&self.spots, &spot);
        if place == self.spots.len() {
            return None;
        }
        match self.spots.get(place).key_of(tag) {
            None => None,
            Some(key) => Some(place_of_key(&self.items, key)),
        }
    }

    /// The place of the last item with the tag among those before `at`, counted from 0. It takes no memory.
    pub fn last_before(&self, tag: Tag, at: usize) -> Option<usize>
        requires in_range { at < length self.now }
        ensures { result ≡ last_position (has_tag tag) (take at self.now) }
    {
        let spot = Spot::new(tag, key_at(&self.items, at));
        let place = place_of(&self.spots, &spot);
        if place == 0 {
            return None;
        }
        match self.spots.get(place - 1).key_of(tag) {
            None => None,
            Some(key) => Some(place_of_key(&self.items, key)),
        }
    }

    /// Puts clones of the items in the place of those from `from` up to `to`, counted from 0.
    pub fn splice(&mut self, from: usize, to: usize, tagged: &[Tagged<T>]) -> Result<(), AllocError>
        requires in_order { from ≤ to }
        requires in_range { to ≤ length self.old }
        ensures ok { OnOk result (self.new ≡ splice self.old from to tagged.now) }
        ensures err { OnErr result (self.new ≡ self.old) }
    {
        if self.is_kept(from, to, tagged) {
            self.set(from, &tagged[0])?;
            return Ok(());
        }
        self.respaced(from, to, tagged)
    }

    // Whether one item comes in the place of one that has the same tag.
    fn is_kept(&self, from: usize, to: usize, tagged: &[Tagged<T>]) -> bool
        requires in_order { from ≤ to }
        requires in_range { to ≤ length self.now }
        ensures one { IsTrue result → to ≡ suc from }
        ensures alone { IsTrue result → length tagged.now ≡ 1 }
        ensures same { IsTrue result → (d : Option Tag × T) → (slice_index_or tagged.now 0 d).0 ≡ (slice_index_or self.now from d).0 }
    {
        if to - from != 1 {
            return false;
        }
        if tagged.len() != 1 {
            return false;
        }
        has_same_tag(&tagged[0], &self.items.get(from).tagged)
    }

    // Puts an item of the same tag in the place of one, so that it has its key.
    fn set(&mut self, at: usize, tagged: &Tagged<T>) -> Result<(), AllocError>
        requires in_range { at < length self.old }
        requires same { (d : Option Tag × T) → tagged.now.0 ≡ (slice_index_or self.old at d).0 }
        ensures ok { OnOk result (self.new ≡ slice_set self.old at tagged.now) }
        ensures err { OnErr result (self.new ≡ self.old) }
    {
        let key = key_at(&self.items, at);
        let tagged = tagged.clone()?;
        match self.items.replace(at, Entry { key, tagged }) {
            Ok(_was) => Ok(()),
            Err(_back) => Err(AllocError),
        }
    }

    // Puts items in the place of a range, with new keys for them, and for some round them where there is no room.
    fn respaced(&mut self, from: usize, to: usize, tagged: &[Tagged<T>]) -> Result<(), AllocError>
        requires in_order { from ≤ to }
        requires in_range { to ≤ length self.old }
        ensures ok { OnOk result (self.new ≡ splice self.old from to tagged.now) }
        ensures err { OnErr result (self.new ≡ self.old) }
    {
        let (low, high) = window(&self.items, from, to, tagged.len());
        let all = gathered(self.alloc, &self.items, (low, high), (from, to), tagged)?;
        self.replace(low, high, &all)?;
        Ok(())
    }

    // Puts items with new keys in the place of those from `low` up to `high`.
    fn replace(&mut self, low: usize, high: usize, tagged: &[Tagged<T>]) -> Result<(), AllocError>
        requires in_order { low ≤ high }
        requires in_range { high ≤ length self.old }
        ensures ok { OnOk result (self.new ≡ splice self.old low high tagged.now) }
        ensures err { OnErr result (self.new ≡ self.old) }
    {
        let entries = keyed(self.alloc, &self.items, low, high, tagged)?;
        let mut spots = self.spots.share()?;
        forget(&mut spots, &self.items, low, high)?;
        remember(&mut spots, &entries)?;
        let mut items = self.items.share()?;
        let entries = ShareVec::from_list(self.alloc, entries)?;
        items.splice(low, high, &entries)?;
        self.items = items;
        self.spots = spots;
        Ok(())
    }
}
