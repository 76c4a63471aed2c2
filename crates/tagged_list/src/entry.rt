//! Items with their tags and keys.
ghost use Rattle.std.specs.Prelude.{◌≡◌, IfOk, IsTrue};
ghost use Rattle.std.specs.Arc.{arc_value};
ghost use Rattle.tagged_list.specs.Entries.{spot_of};

use crate::spot::Spot;
use crate::tag::Tag;
use std::alloc::{AllocError, Global};
use std::marker::Model;
use std::sync::Arc;

/// An item with what it is found by, if it is. It is seen as the pair of both, and a clone shares the item.
#[derive(Drop)]
pub struct Tagged<T> {
    tag: Option<Tag>,
    item: Arc<T>,
}

impl<T> Model for Tagged<T> {
    ghost use Rattle.std.specs.Prelude.{Option};
    ghost use Rattle.std.specs.Arc.{arc_value};
    ghost use Rattle.tagged_list.specs.declared.tag.Tag.{Tag};

    ghost Value = { Option Tag × T };

    ghost view = { λ tagged. (tagged.tag, arc_value tagged.item) };
}

impl<T: Drop> Clone for Tagged<T> {
    ghost is_clone = { λ x y. y ≡ x };

    fn clone(&self) -> Result<Tagged<T>, AllocError> {
        let item = Arc::try_clone(&self.item)?;
        Ok(Tagged {
            tag: self.tag,
            item,
        })
    }
}

impl<T: Drop> Tagged<T> {
    pub fn new(alloc: Global, tag: Option<Tag>, item: T) -> Result<Tagged<T>, AllocError>
        ensures { IfOk result (λ tagged. tagged ≡ (tag, item)) }
    {
        let item = Arc::new(alloc, item)?;
        Ok(Tagged { tag, item })
    }

    /// What the item is found by.
    pub fn tag(&self) -> Option<Tag>
        ensures { result ≡ self.now.0 }
    {
        self.tag
    }

    /// The item.
    pub fn item(&self) -> &T
        ensures { result.now ≡ self.now.1 }
    {
        &self.item
    }
}

/// Whether two items have the same tag.
pub fn has_same_tag<T: Drop>(one: &Tagged<T>, other: &Tagged<T>) -> bool
    ensures { IsTrue result → one.now.0 ≡ other.now.0 }
{
    match one.tag() {
        None => match other.tag() {
            None => true,
            Some(_tag) => false,
        },
        Some(tag) => match other.tag() {
            None => false,
            Some(given) => tag.is_same(given),
        },
    }
}

/// An item with its tag and its key. The keys of a list rise from one item to the next.
#[derive(Drop)]
pub struct Entry<T> {
    pub key: u64,
    pub tagged: Tagged<T>,
}

impl<T: Drop> Clone for Entry<T> {
    ghost is_clone = { λ x y. y ≡ x };

    fn clone(&self) -> Result<Entry<T>, AllocError> {
        let tagged = self.tagged.clone()?;
        Ok(Entry {
            key: self.key,
            tagged,
        })
    }
}

impl<T: Drop> Entry<T> {
    /// Where the item is found, if it has a tag.
    pub fn spot(&self) -> Option<Spot>
        ensures { result ≡ spot_of self.now }
    {
        match self.tagged.tag() {
            None => None,
            Some(tag) => Some(Spot::new(tag, self.key)),
        }
    }
}
