//! Names resolved: what the elements and attributes of a tree mean by the prefixes that are declared around them.
#![tactic(auto)]

mod equal;
mod known;
mod names;
mod parts;
mod scope;
mod shadows;
mod tree;

pub use equal::has_bad_names;
pub use known::{key_named, tag_named};
pub use names::{attribute_name, element_name, key_of, tag_of};
pub use scope::Scope;
pub use shadows::{Shadow, enter, leave};
pub use tree::{Resolved, resolve};
