//! Sections that are met stand in one another as their elements do. Laws of definitions; the function does nothing.
#![tactic(auto)]

mod laws;

pub use laws::sections_are_nested;
