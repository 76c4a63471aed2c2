//! Sections, blocks and declarations as they are written.
//!
//! A section's beginning and its end have calls of their own, for who has its blocks in rows. After an error a beginning of
//! what was asked for may stand at the end of the string.
#![tactic(auto)]

mod blocks;
mod declarations;
mod sections;

pub use blocks::{push_block, push_blocks};
pub use declarations::{push_sequences, push_variables};
pub use sections::{SectionTag, push_section_end, push_section_start};
