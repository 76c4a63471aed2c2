//! Primitives applied one after another.
ghost use Rattle.std.specs.Prelude.{◌≡◌, ◌++◌, fold, OnOk};
ghost use Rattle.undo_groups.specs.Meaning.{FitInOrder, answers};

use crate::invertible::Invertible;
use std::alloc::AllocError;

// Applies the primitives, and appends what each answered. After an error the target may have some of them.
pub(crate) fn apply_all<T: Invertible>(
    target: &mut T,
    prims: &[T::Prim],
    answered: &mut Vec<T::Prim>,
) -> Result<(), AllocError>
    requires { FitInOrder T.meaning (T.value target.old) prims.now }
    ensures target { OnOk result (target.new ≡ fold T.after target.old prims.now) }
    ensures answered { OnOk result (answered.new.items ≡ answered.old.items ++ answers T.meaning (T.value target.old) prims.now) }
{
    for prim in prims {
        answered.push(target.apply(prim)?)?;
    }
    Ok(())
}
