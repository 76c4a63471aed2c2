//! A target whose changes can be taken back.
ghost use Rattle.std.specs.Prelude.{◌≡◌, List, Result, IfOk, OnOk, OnErr};
ghost use Rattle.undo_groups.specs.Meaning.{Meaning, FitInOrder};
ghost use Rattle.undo_groups.specs.Expansion.{Expands};

use crate::fault::ExpandFault;
use std::alloc::AllocError;

/// A target that operations change by primitives, each of which can be taken back.
///
/// A target holds a value, and may hold more, on which the expansion of operations alone depends, as the next
/// free number. Contracts compare targets by `≡`, so a target of several fields has an `impl Model`.
pub trait Invertible: Drop {
    /// What a caller asks for.
    type Op;

    /// The least change, with all that applying it needs.
    type Prim: Drop;

    /// Why an operation is refused.
    type Why: Drop;

    /// What undo gives back.
    ghost Value: { Type 0 };

    /// The value that a target holds.
    ghost value: { Self → Value };

    /// The primitives that an operation expands to on a target, or why it is refused.
    ghost expansion: { Self → Self.Op → Result (List Self.Prim) Self.Why };

    /// What primitives mean on values: whether one fits, what it leaves and what applying it answers.
    ghost meaning: { Meaning Value Self.Prim };

    /// The target that applying a fitting primitive leaves.
    ghost after: { Self → Self.Prim → Self };

    /// An equal target.
    fn copy(&self) -> Result<Self, AllocError>
        ensures { IfOk result (λ copied. copied ≡ self.now) };

    /// The primitives of an operation, which fit one after another, or its refusal.
    fn expand(&self, op: &Self::Op) -> Result<Vec<Self::Prim>, ExpandFault<Self::Why>>
        ensures answer { Expands (expansion self.now op.now) result }
        ensures fits { IfOk result (λ prims. FitInOrder meaning (value self.now) prims.items) };

    /// Applies a primitive, and answers the one that takes it back.
    fn apply(&mut self, prim: &Self::Prim) -> Result<Self::Prim, AllocError>
        requires { meaning.fits (value self.old) prim.now }
        ensures target { OnOk result (self.new ≡ after self.old prim.now) }
        ensures answer { IfOk result (λ back. back ≡ meaning.answer (value self.old) prim.now) }
        ensures err { OnErr result (self.new ≡ self.old) };

    /// What a fitting primitive makes of the value depends on the value alone.
    ghost value_after: { (s : Self) (p : Self.Prim) → meaning.fits (value s) p → value (after s p) ≡ meaning.changed (value s) p };

    /// The answered primitive fits the value after.
    ghost answer_fits: { (v : Value) (p : Self.Prim) → meaning.fits v p → meaning.fits (meaning.changed v p) (meaning.answer v p) };

    /// Applying the answered primitive gives the former value.
    ghost answer_restores: { (v : Value) (p : Self.Prim) → meaning.fits v p → meaning.changed (meaning.changed v p) (meaning.answer v p) ≡ v };
}
