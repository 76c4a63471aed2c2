//! Lines: the keys that they depend on, the units that they are cut between, and the rows that they print.
#![tactic(auto)]

mod job;
mod key;
mod unit;

pub use job::{Formed, Job, Stamp};
pub use key::{Key, Line, ShownText};
pub use unit::{TextUnit, UnitClass};

#[cfg(test)]
mod tests;
