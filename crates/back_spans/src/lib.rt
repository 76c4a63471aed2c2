//! Spans round runs of neighbours are read back as the spans of each. Laws of definitions; the function does nothing.
#![tactic(auto)]

mod laws;

pub use laws::spans_are_read_back;
