//! The style parts and masters of a tree are read alike wherever its elements stand. Laws of definitions; the functions do nothing.
#![tactic(auto)]

mod laws;

pub use laws::{
    files_need_no_places, head_lengths_need_no_places, loops_need_no_places,
    masters_need_no_places, sheets_need_no_places,
};
