//! Names that a valid document refers to are good as they are read, where all that is referred to is there, and none is too long.
//! Laws of definitions; the functions do nothing.
#![tactic(auto)]

mod laws;

pub use laws::{names_are_short, references_are_good};
