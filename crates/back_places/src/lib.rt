//! Trees that are alike but for places are read alike but for places. Laws of definitions; the function does nothing.
#![tactic(auto)]

mod laws;

pub use laws::places_are_of_no_account;
