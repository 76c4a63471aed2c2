//! The tree of a written document has no offence. Laws of definitions; the functions do nothing.
#![tactic(auto)]

mod laws;

pub use laws::nothing_offends;
