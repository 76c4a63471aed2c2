//! Which of some things, each of which has at most one parent, are their own ancestors. Each step to a parent is taken at most three times in all.
#![tactic(auto)]

mod walks;

pub use walks::own_ancestors;
