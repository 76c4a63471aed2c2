//! The style parts and masters of a written document are read back, and so is what its file says of itself. Laws of definitions; the
//! functions do nothing.
#![tactic(auto)]

mod laws;

pub use laws::{
    files_are_read_back, masters_are_read_back, names_are_read_back, sheets_are_read_back,
    valid_masters_are_read_back, valid_styles_are_read_back,
};
