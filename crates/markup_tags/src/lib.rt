//! Tags, instructions and the XML declaration, each read from the front of a text, after the productions of XML 1.0.
//!
//! They are made of the constructs of `markup_parts`, and are read as those are. What takes memory may also fail for want of
//! it.
#![tactic(auto)]

mod fault;
mod instructions;
mod tags;
mod values;

pub use fault::Fault;
pub use instructions::{declaration, instruction};
pub use markup_nodes::{Attr, Attrs, Word};
pub use tags::{Tag, end_tag, start_tag};

#[cfg(test)]
mod tests;
