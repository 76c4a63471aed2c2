//! The styles of a document: a list that is shared without copying it, with an index by family and name.
#![tactic(auto)]

mod changes;
mod checks;
mod index;
mod kept;
mod lineage;
mod parts;
mod places;
mod props;
mod refusal;
mod stated;
mod style_tree;

pub use refusal::StyleRefusal;
pub use stated::Stated;
pub use style_tree::StyleTree;

#[cfg(test)]
mod tests;
