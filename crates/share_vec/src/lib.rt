//! A list that is shared without copying its items.
#![tactic(auto)]

mod edits;
mod iter;
mod joins;
mod rope;
mod share_vec;
#[cfg(test)]
mod tests;
mod turns;

pub use iter::Iter;
pub use share_vec::ShareVec;
