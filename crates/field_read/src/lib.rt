//! Fields, read from the attributes of their elements.
#![tactic(auto)]

mod fields;
mod names;
mod settings;

pub use fields::field_of;
