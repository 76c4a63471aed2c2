//! Which page a paragraph stands on, by a page table.
#![tactic(auto)]

mod index;
mod lookup;
mod table;

pub use index::PageIndex;
pub use lookup::IndexedTable;
pub use table::{number_of, page_of};
