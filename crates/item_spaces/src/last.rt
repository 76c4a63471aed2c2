//! What came last in a paragraph.
ghost use Rattle.std.specs.Prelude.{◌≡◌};
ghost use Rattle.item_spaces.specs.Last.{is_solid_last, place_of};

/// What came last that isn't a mark.
#[derive(Debug, Clone, Copy)]
pub(crate) enum Last {
    /// Nothing, or a space that goes.
    Nothing,
    /// An item.
    Solid,
    /// The space that stays if an item other than a mark is still to come, by its place among the items.
    Space(usize),
}

impl Last {
    /// Whether it is an item.
    pub(crate) fn is_solid(self) -> bool
        ensures { result ≡ is_solid_last self }
    {
        matches!(self, Last::Solid)
    }

    /// The place of the space that may stay, if there is one.
    pub(crate) fn place(self) -> Option<usize>
        ensures { result ≡ place_of self }
    {
        match self {
            Last::Space(at) => Some(at),
            _ => None,
        }
    }
}
