//! What the limits of a document measure, told by its rows.
#![tactic(auto)]

mod laws;

pub use laws::{changes_of_paragraphs_leave_sections, measures_are_those_of_rows};
