//! What the checks of an operation on one paragraph ask of rows.
#![tactic(auto)]

mod laws;

pub use laws::{
    live_paragraphs_have_rows, notes_are_open_round_rows, protecting_sections_are_open,
};
