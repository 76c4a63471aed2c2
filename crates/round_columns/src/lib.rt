//! The columns of paragraphs that have no page yet, by the masters that are stated before them.
#![tactic(auto)]

mod in_force;
mod laws;

pub use in_force::InForce;
pub use laws::columns_are_those_in_force;
