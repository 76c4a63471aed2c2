//! Where an item with a tag is found.
ghost use Rattle.std.specs.Prelude.{◌≡◌, ◌<◌, ◌^◌, ◌↔◌, IsTrue, IfSome, IfNone, ℕ};
ghost use Rattle.tagged_list.specs.Tags.{rank_of, spot_at};

use crate::tag::Tag;
use std::alloc::AllocError;
use std::marker::Model;

/// The tag of an item with the item's key. Spots have the order of their tags, and those of one tag the order of their
/// keys.
#[derive(Drop)]
pub struct Spot {
    rank: u64,
    key: u64,
}

impl Model for Spot {
    ghost use Rattle.std.specs.Prelude.{ℕ, ◌<◌, ◌^◌};
    ghost use Rattle.tagged_list.specs.Tags.{spot_at};

    ghost Value = { ℕ };

    ghost view = { λ spot. spot_at spot.rank spot.key };

    ghost invariant = { λ spot. spot.key < 2 ^ 64 };
}

impl Clone for Spot {
    ghost is_clone = { λ x y. y ≡ x };

    fn clone(&self) -> Result<Spot, AllocError> {
        Ok(Spot {
            rank: self.rank,
            key: self.key,
        })
    }
}

impl Spot {
    pub fn new(tag: Tag, key: u64) -> Spot
        ensures { result ≡ spot_at (rank_of tag) key }
    {
        Spot {
            rank: tag.rank(),
            key,
        }
    }

    pub fn is_before(&self, other: &Spot) -> bool
        ensures { IsTrue result ↔ self.now < other.now }
    {
        let key = self.key;
        let given = other.key;
        if self.rank != other.rank {
            return self.rank < other.rank;
        }
        key < given
    }

    /// The key, if this is a spot of the tag.
    pub fn key_of(&self, tag: Tag) -> Option<u64>
        ensures some { IfSome result (λ key. (self.now ≡ spot_at (rank_of tag) key) × (key < 2 ^ 64)) }
        ensures none { IfNone result ((key : ℕ) → key < 2 ^ 64 → self.now ≡ spot_at (rank_of tag) key → ⊥) }
    {
        let key = self.key;
        if self.rank != tag.rank() {
            return None;
        }
        Some(key)
    }
}
