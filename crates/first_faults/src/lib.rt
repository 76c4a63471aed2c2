//! The offence of a tree at the least place, of those that are found one after another.
#![tactic(auto)]

mod first_fault;

pub use first_fault::FirstFault;
