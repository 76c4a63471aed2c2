//! The units of a text, which lines are cut between, and the printed row of a line.
#![tactic(auto)]

mod clusters;
mod margins;
mod printing;

pub use clusters::units;
pub use margins::width;
pub use printing::row;
