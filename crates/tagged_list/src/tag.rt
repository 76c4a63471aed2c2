//! What an item is found by.
ghost use Rattle.std.specs.Prelude.{◌≡◌, IsTrue};
ghost use Rattle.tagged_list.specs.Tags.{rank_of};

/// What an item of a list is found by. More items of a list may have the same tag.
#[derive(Debug, Clone, Copy, PartialEq, Eq)]
pub enum Tag {
    /// The item's number.
    Number(u32),
    /// How deep the item stands.
    Depth(u32),
}

impl Tag {
    // The place of a tag among all tags.
    pub(crate) fn rank(&self) -> u64
        ensures { result ≡ rank_of self.now }
    {
        match self {
            Tag::Number(number) => 2 * u64::from(*number),
            Tag::Depth(depth) => 2 * u64::from(*depth) + 1,
        }
    }

    // Whether two tags are the same.
    pub(crate) fn is_same(self, other: Tag) -> bool
        ensures { IsTrue result → self ≡ other }
    {
        match self {
            Tag::Number(number) => match other {
                Tag::Number(given) => number == given,
                Tag::Depth(_given) => false,
            },
            Tag::Depth(depth) => match other {
                Tag::Number(_given) => false,
                Tag::Depth(given) => depth == given,
            },
        }
    }
}
