//! Whole runs of groups, undos and redos.
ghost use Rattle.std.specs.Prelude.{◌≡◌, ℕ, ◌≤◌, IfOk, All};
ghost use Rattle.undo_groups.specs.Lists.{IsFew};
ghost use Rattle.undo_groups.specs.Past.{Past, AreOf, Steps, Repeated};
ghost use Rattle.undo_groups.specs.Replay.{IsCountable, Takes, Plays, opening};

use crate::fault::{GroupFault, RedoFault, UndoFault};
use crate::groups::Groups;
use crate::invertible::Invertible;
use crate::way::{MOST_GROUPS, Way};
use std::alloc::{AllocError, Global};

/// What is asked of a target with its groups.
#[derive(Debug, Drop)]
pub enum Step<Op> {
    /// Run these operations, all or none.
    Run(Vec<Op>),
    /// Go back to the value before the last group.
    Undo,
    /// Go on to the value that was undone last.
    Redo,
}

/// What a step came to.
#[derive(Debug, Drop, PartialEq, Eq)]
pub enum Reply<Why> {
    /// The step was done.
    Done,
    /// The operation at this place of the group, counted from 0, is the first that is refused. Nothing changed.
    Refused { index: u32, why: Why },
    /// No earlier group is kept. Nothing changed.
    NothingToUndo,
    /// Nothing was undone since the last group ran. Nothing changed.
    NothingToRedo,
}

/// What a list of steps came to.
#[derive(Drop)]
pub struct Replayed<T: Invertible> {
    /// The target after all the steps.
    pub target: T,
    /// Its groups.
    pub groups: Groups<T>,
    /// What each step came to, in their order.
    pub replies: Vec<Reply<T::Why>>,
}

/// Plays the steps on a copy of the target, from no groups on.
pub fn replay<T: Invertible>(
    alloc: Global,
    target: &T,
    steps: &[Step<T::Op>],
) -> Result<Replayed<T>, AllocError>
    requires { All IsCountable steps.now }
    ensures plays { IfOk result (λ played. Plays T.expansion T.after T.value T.meaning steps.now played.replies.items
        (opening target.now) (record { target = played.target; lists = played.groups })) }
    ensures of_target { IfOk result (λ played. AreOf T.meaning (T.value played.target) played.groups) }
    ensures few { IfOk result (λ played. IsFew played.groups) }
{
    let mut played = target.copy()?;
    let mut groups = Groups::new(alloc)?;
    let mut replies = Vec::with_capacity(alloc, steps.len())?;
    for step in steps {
        replies.push(take(&mut groups, &mut played, step)?)?;
    }
    Ok(Replayed {
        target: played,
        groups,
        replies,
    })
}

/// Where up to 256 groups ran one after another, as many undos give the value before the first of them.
///
/// This is a law of the steps that the calls of `Groups` take, and does nothing when it runs.
pub fn undos_restore<T: Invertible>()
    ensures { (start middle end : Past T.Value) (n : ℕ) → n ≤ MOST_GROUPS → Repeated n (Steps Way.Run) start middle
        → Repeated n (Steps Way.Undo) middle end → end.present ≡ start.present }
{}

// Takes one step.
fn take<T: Invertible>(
    groups: &mut Groups<T>,
    target: &mut T,
    step: &Step<T::Op>,
) -> Result<Reply<T::Why>, AllocError>
    requires countable { IsCountable step.now }
    requires of_target { AreOf T.meaning (T.value target.old) groups.old }
    ensures takes { IfOk result (λ reply. Takes T.expansion T.after T.value T.meaning step.now reply
        (record { target = target.old; lists = groups.old }) (record { target = target.new; lists = groups.new })) }
    ensures of_target { AreOf T.meaning (T.value target.new) groups.new }
    ensures few { IsFew groups.new }
{
    match step {
        Step::Run(ops) => match groups.run_group(target, ops.as_slice()) {
            Ok(()) => Ok(Reply::Done),
            Err(GroupFault::Refused { index, why }) => Ok(Reply::Refused { index, why }),
            Err(GroupFault::NoMemory) => Err(AllocError),
        },
        Step::Undo => match groups.undo(target) {
            Ok(()) => Ok(Reply::Done),
            Err(UndoFault::NothingToUndo) => Ok(Reply::NothingToUndo),
            Err(UndoFault::NoMemory) => Err(AllocError),
        },
        Step::Redo => match groups.redo(target) {
            Ok(()) => Ok(Reply::Done),
            Err(RedoFault::NothingToRedo) => Ok(Reply::NothingToRedo),
            Err(RedoFault::NoMemory) => Err(AllocError),
        },
    }
}
