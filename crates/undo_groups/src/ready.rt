//! A step that is ready to be done.
ghost use Rattle.std.specs.Prelude.{◌≡◌, ◌<◌, ◌^◌, length, fold, IfOk};
ghost use Rattle.undo_groups.specs.Meaning.{FitInOrder, inverse};
ghost use Rattle.undo_groups.specs.Expansion.{expanded, AnswersGroup};

use crate::apply::apply_all;
use crate::fault::{ExpandFault, GroupFault};
use crate::group::Group;
use crate::invertible::Invertible;
use crate::way::Way;
use std::alloc::{AllocError, Global};
use std::marker::Model;

/// A step on a target that is ready to be done: all the memory that it needs is taken.
#[derive(Drop)]
pub struct Ready<T: Invertible> {
    way: Way,
    target: T,
    prims: Group<T::Prim>,
    kept: Group<T::Prim>,
}

impl<T: Invertible> Model for Ready<T> {
    ghost use Rattle.undo_groups.specs.Step.{Prepared};

    ghost Value = { Prepared T T.Prim };

    ghost view = { λ r. record { way = r.way; target = r.target; prims = r.prims; kept = r.kept } };
}

impl<T: Invertible> Ready<T> {
    ghost use Rattle.undo_groups.specs.Step.{WasReadied};

    // A run of the operations.
    pub(crate) fn of_group(
        alloc: Global,
        target: &T,
        ops: &[T::Op],
    ) -> Result<Ready<T>, GroupFault<T::Why>>
        requires { length ops.now < 2 ^ 32 }
        ensures answer { AnswersGroup (expanded T.expansion T.after target.now ops.now) result }
        ensures prims { IfOk result (λ ready. expanded T.expansion T.after target.now ops.now ≡ Ok ready.prims) }
        ensures way { IfOk result (λ ready. ready.way ≡ Way.Run) }
        ensures readied { IfOk result (WasReadied T.after T.value T.meaning target.now) }
    {
        let mut changed = target.copy()?;
        let mut prims = Vec::new(alloc);
        let mut answered = Vec::new(alloc);
        for (index, op) in ops.iter().enumerate() {
            let mut expansion = match changed.expand(op) {
                Ok(expansion) => expansion,
                Err(ExpandFault::Refused(why)) => {
                    let index = index as u32;
                    return Err(GroupFault::Refused { index, why });
                }
                Err(ExpandFault::NoMemory) => return Err(GroupFault::NoMemory),
            };
            apply_all(&mut changed, expansion.as_slice(), &mut answered)?;
            prims.append(&mut expansion)?;
        }
        answered.reverse();
        Ok(Ready {
            way: Way::Run,
            target: changed,
            prims: Group::new(alloc, prims)?,
            kept: Group::new(alloc, answered)?,
        })
    }

    // A step that applies a kept group.
    pub(crate) fn of_kept(
        alloc: Global,
        way: Way,
        target: &T,
        group: &Group<T::Prim>,
    ) -> Result<Ready<T>, AllocError>
        requires { FitInOrder T.meaning (T.value target.now) group.now }
        ensures prims { IfOk result (λ ready. ready.prims ≡ group.now) }
        ensures way { IfOk result (λ ready. ready.way ≡ way) }
        ensures readied { IfOk result (WasReadied T.after T.value T.meaning target.now) }
    {
        let mut changed = target.copy()?;
        let mut answered = Vec::with_capacity(alloc, group.prims().len())?;
        apply_all(&mut changed, group.prims(), &mut answered)?;
        answered.reverse();
        Ok(Ready {
            way,
            target: changed,
            prims: group.share()?,
            kept: Group::new(alloc, answered)?,
        })
    }

    // The way of the step, the target after it and the group that it keeps.
    pub(crate) fn into_parts(self) -> (Way, T, Group<T::Prim>)
        ensures { (result.0 ≡ self.way) × (result.1 ≡ self.target) × (result.2 ≡ self.kept) }
    {
        let Ready {
            way,
            target,
            prims: _,
            kept,
        } = self;
        (way, target, kept)
    }

    /// The target as it is after the step.
    pub fn target(&self) -> &T
        ensures { result.now ≡ self.now.target }
    {
        &self.target
    }

    /// The primitives that the step applies, the first one first.
    pub fn prims(&self) -> &[T::Prim]
        ensures { result.now ≡ self.now.prims }
    {
        self.prims.prims()
    }
}
