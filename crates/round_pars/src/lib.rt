//! What rounds read of each paragraph of a document, whatever its page is.
#![tactic(auto)]

mod pars;

pub use pars::{RoundPar, round_pars};
