//! Fields as definitions: what is read, one after another, by those who count; and the types that they speak of.
#![tactic(auto)]

mod gathered;

pub use gathered::{
    Gathered, NoteTarget, ParPlace, Piece, SequenceTarget, Shown, Spot, Target, VariableSet,
};
