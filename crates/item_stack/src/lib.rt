//! Lists that are taken apart, and put together, at the front.
#![tactic(auto)]

mod stack;

pub use stack::Stack;
