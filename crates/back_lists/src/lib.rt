//! List styles and the outline are read back. Laws of definitions; the functions do nothing.
#![tactic(auto)]

mod laws;

pub use laws::{list_styles_are_read_back, outlines_are_read_back};
