//! What the laws of rows of containers ask of a document, told by its rows.
#![tactic(auto)]

mod laws;

pub use laws::flat_rows_are_apart;
