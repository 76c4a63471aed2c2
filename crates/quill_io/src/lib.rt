//! The outside world, as a document program sees it: a shelf that files are fetched from, and a sink
//! that text is put to.
//!
//! Each of the two traits has a meaning that code can be proved against, and a count of the faults of
//! reading or writing. Code that is generic over them cannot raise that count by itself, so an answer
//! that comes only where the count rose in a call is an answer about the object, and not about the code.
#![tactic(auto)]

mod calls;
pub mod folder_shelf;
pub mod mem_shelf;
pub mod mem_sink;
pub mod shelf;
pub mod sink;
pub mod std_sink;

pub use folder_shelf::FolderShelf;
pub use mem_shelf::{MemShelf, has_distinct_names};
pub use mem_sink::MemSink;
pub use shelf::{FetchFault, Fetched, Shelf};
pub use sink::{Sink, SinkFault};
pub use std_sink::StdSink;

#[cfg(test)]
mod tests;
