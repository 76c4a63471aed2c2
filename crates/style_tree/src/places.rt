//! The places of styles by their names, for one family.
ghost use Rattle.std.specs.Prelude.{◌≡◌, ◌<◌, Some, None, List, ℕ, if◌then◌else◌};
ghost use Rattle.std.specs.Str.{bytes_eq};
ghost use Rattle.indexmap.specs.IndexMap.{get, spare};
ghost use Rattle.style_tree.specs.Index.{shifted, shifted_entries};

use doc_model::Name;
use indexmap::IndexMap;

/// What happens to the places of a list.
#[derive(Debug, Clone, Copy, PartialEq, Eq)]
pub enum Shift {
    /// A new item stands at the first place, and was noted at the second, the last one.
    Open(usize, usize),
    /// The item at the place has gone.
    Close(usize),
}

impl Shift {
    /// Where a place is after the shift.
    pub fn place(self, place: usize) -> usize
        ensures { result ≡ shifted self place }
    {
        match self {
            Shift::Open(at, count) => {
                if place < at {
                    return place;
                }
                if place < count {
                    return place + 1;
                }
                at
            }
            Shift::Close(at) => {
                if at < place {
                    return place - 1;
                }
                place
            }
        }
    }
}

/// Notes the place of a name, for which there is room.
pub fn note(places: &mut IndexMap<Name, usize>, name: Name, place: usize)
    requires { 0 < spare places.old }
    ensures { (other : List ℕ) → get bytes_eq places.new other ≡ (if bytes_eq name other then Some place else get bytes_eq places.old other) }
{
    match places.insert(name, place) {
        Ok(_) => (),
        Err(_) => unreachable!(),
    }
}

/// Forgets the place of a name.
pub fn forget(places: &mut IndexMap<Name, usize>, name: &Name)
    ensures { (other : List ℕ) → get bytes_eq places.new other ≡ (if bytes_eq name.now other then None else get bytes_eq places.old other) }
{
    places.swap_remove(name);
}

/// Shifts the places of all names.
pub fn shift_all(places: &mut IndexMap<Name, usize>, shift: Shift)
    ensures { places.new.entries ≡ shifted_entries shift places.old.entries }
{
    let count = places.len();
    let mut next = 0;
    'entries: while next < count {
        let (_, place) = places.pair_mut(next);
        *place = shift.place(*place);
        next += 1;
    }
}
