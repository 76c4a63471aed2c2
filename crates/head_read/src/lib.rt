//! Master pages with their headers and footers, as they are read, and which paragraphs of these have too many items.
#![tactic(auto)]

mod headers;
mod kept_masters;
mod master;
mod paragraphs;
mod rules;

pub use kept_masters::{ReadMasters, read_masters};
