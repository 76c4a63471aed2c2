//! The rows of a document: its body as a flat list, which is edited without going through a tree.
#![tactic(auto)]

mod laws;
mod node_array;
mod placed;
mod row;

pub use laws::same_rows;
pub use node_array::NodeArray;
pub use row::{Row, SectionHead};
