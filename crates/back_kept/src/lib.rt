//! In the text of a written document each section, mark, note and reference name that is met is kept. Laws of definitions; the
//! functions do nothing.
#![tactic(auto)]

mod laws;

pub use laws::what_is_met_is_kept;
