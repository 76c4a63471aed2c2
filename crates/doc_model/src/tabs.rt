//! Tab stops.

ghost use Rattle.std.specs.Prelude.{◌≡◌, ◌≤◌, length, MatchOption, IfOk, IsTrue, ◌↔◌};
ghost use Rattle.doc_model.specs.Ranges.{most_tab_stops};

use crate::list::List;
use crate::ranges::Distance;
use std::alloc::AllocError;
use std::marker::Model;

/// A place in a line to which a tab leads ('style:tab-stop').
#[derive(Debug, Clone, Copy, PartialEq, Eq)]
pub struct TabStop {
    /// The distance from the line's left end ('style:position').
    pub position: Distance,
    /// Whether the text behind the tab ends there ('style:type' right); else it begins there.
    pub right: bool,
}

/// The tab stops that a style states, at most 32 ('style:tab-stops'). Contracts see the list of them.
#[derive(Debug, Drop, PartialEq, Eq)]
pub struct TabStops {
    stops: List<TabStop>,
}

impl Model for TabStops {
    ghost use Rattle.std.specs.Prelude.{List, ◌≤◌, length};
    ghost use Rattle.doc_model.specs.Ranges.{most_tab_stops};
    ghost use Rattle.doc_model.specs.declared.tabs.TabStop.{TabStop};

    ghost Value = { List TabStop };

    ghost view = { λ tabs. tabs.stops };

    ghost inverse = { λ stops. record { stops = stops } };

    ghost invariant = { λ tabs. length tabs.stops ≤ most_tab_stops };
}

impl TabStop {
    pub fn is_same(&self, other: &TabStop) -> bool
        ensures { IsTrue result ↔ (self.now ≡ other.now) }
    {
        if self.position.units() != other.position.units() {
            return false;
        }
        self.right == other.right
    }
}

impl TabStops {
    /// These stops, where they are at most 32. It takes no memory.
    pub fn from_list(stops: List<TabStop>) -> Option<TabStops>
        ensures { MatchOption result (length stops ≤ most_tab_stops → ⊥) (λ tabs. (tabs ≡ stops) × (length stops ≤ most_tab_stops)) }
    {
        if stops.len() > 32 {
            return None;
        }
        Some(TabStops { stops })
    }

    /// The stops, lent.
    pub fn get(&self) -> &[TabStop]
        ensures same { result.now ≡ self.now }
        ensures few { length result.now ≤ most_tab_stops }
    {
        self.stops.get()
    }

    pub fn copy(&self) -> Result<TabStops, AllocError>
        ensures { IfOk result (λ c. c ≡ self.now) }
    {
        let stops = List::from_slice(self.stops.allocator(), self.stops.get())?;
        Ok(TabStops { stops })
    }
}

impl Clone for TabStops {
    ghost is_clone = { λ x y. y ≡ x };

    fn clone(&self) -> Result<TabStops, AllocError> {
        self.copy()
    }
}
