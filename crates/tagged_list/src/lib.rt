//! A shared list whose items are found by tags, however many stand before them.
#![tactic(auto)]

mod entry;
mod keys;
mod spot;
mod spots;
mod tag;
mod tagged_list;

pub use entry::Tagged;
pub use tag::Tag;
pub use tagged_list::TaggedList;
