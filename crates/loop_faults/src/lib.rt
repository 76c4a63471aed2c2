//! Where the styles of a file are their own ancestors.
#![tactic(auto)]

mod loops;

pub use loops::loop_places;
