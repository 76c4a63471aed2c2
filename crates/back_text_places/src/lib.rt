//! A text in which all that is met is kept is read alike wherever its elements stand. Laws of definitions; the function does nothing.
#![tactic(auto)]

mod laws;

pub use laws::texts_need_no_places;
