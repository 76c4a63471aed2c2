//! Which styles are their own ancestors, found in one walk over all.
#![tactic(auto)]

mod loops;
mod places;

pub use loops::StyleLoops;
