//! Parts of the elements of a tree that many readers ask for. Counts of what is left out stop at the greatest number of 32 bits.
#![tactic(auto)]

mod elements;
mod left;
mod name_set;

pub use elements::{first, is, is_same_tag, name_of};
pub use left::{LeftOut, attributes_out, leaf_left, own_left, part_left};
pub use name_set::NameSet;
