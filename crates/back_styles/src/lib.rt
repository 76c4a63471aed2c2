//! Styles and the default style are read back. Laws of definitions; the functions do nothing.
#![tactic(auto)]

mod laws;

pub use laws::{default_styles_are_read_back, styles_are_read_back};
