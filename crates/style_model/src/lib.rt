//! Styles as definitions: what a style states, what holds where it states nothing, and the dimensions of pages.
#![tactic(auto)]

mod pages;

pub use pages::Dims;
