//! Where a text has too many sections, or sections in too many others.
#![tactic(auto)]

mod depth;
mod limits;
mod sections;

pub use depth::deep_sections;
pub use limits::section_beyond;
