//! Fields as they are written.
#![tactic(auto)]

mod fields;
mod kinds;

pub use fields::push_field;

#[cfg(test)]
mod tests;
