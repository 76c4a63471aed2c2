//! Lengths as texts, the dimensions of pages, and which master page follows another. Nothing here takes memory.
#![tactic(auto)]

mod figures;
mod lengths;
mod masters;
mod pages;

pub use lengths::length;
pub use masters::next_master;
pub use pages::dims;

#[cfg(test)]
mod tests;
