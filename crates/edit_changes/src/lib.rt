//! Changes of a document that is edited, each of which can be taken back.
#![tactic(auto)]

mod prim;

pub use prim::Prim;
