//! The lists of groups behind undo and redo.
ghost use Rattle.std.specs.Prelude.{◌≡◌, ℕ, ◌<◌, ◌^◌, ◌↔◌, List, [], length, fold, IfOk, OnOk, OnErr};
ghost use Rattle.undo_groups.specs.Expansion.{expanded, AnswersGroup};
ghost use Rattle.undo_groups.specs.Lists.{Moves, IsNext, IsFew};
ghost use Rattle.undo_groups.specs.Past.{AreOf, Steps, past_of};
ghost use Rattle.undo_groups.specs.Step.{IsReadyFor, Applies};

use crate::fault::{GroupFault, RedoFault, UndoFault};
use crate::group::{Group, last_of};
use crate::invertible::Invertible;
use crate::ready::Ready;
use crate::way::{MOST_GROUPS, Way};
use std::alloc::{AllocError, Global};
use std::collections::VecDeque;
use std::marker::Model;

/// The groups of primitives that lead back to the earlier values of a target, and those that lead on to the
/// undone ones.
///
/// Contracts see the lists `earlier` and `undone`, in each the oldest group first and the next to be applied last.
/// All calls are for one target: from its present value each list fits, the last group first, and gives the values
/// that undo or redo will make present one after another. The past of the target is its value with these two lists
/// of values, and each call says how it changes that.
///
/// A step works on a copy of the target, and takes all its memory before it changes anything. So a refusal or want
/// of memory leaves the target and the lists as before. The room for the groups themselves, 256 in each list, is
/// taken when the lists are made.
#[derive(Drop)]
pub struct Groups<T: Invertible> {
    earlier: VecDeque<Group<T::Prim>>,
    undone: VecDeque<Group<T::Prim>>,
    alloc: Global,
}

impl<T: Invertible> Model for Groups<T> {
    ghost use Rattle.std.specs.Prelude.{◌+◌, length};
    ghost use Rattle.std.specs.VecDeque.{deque_capacity};
    ghost use Rattle.undo_groups.specs.Lists.{Lists, HasRoom};

    ghost Value = { Lists T.Prim };

    ghost view = { λ g. record { earlier = g.earlier.items; undone = g.undone.items } };

    ghost invariant = { λ g. HasRoom (length g.earlier.items + length g.undone.items) (deque_capacity g.earlier) (deque_capacity g.undone) };
}

impl<T: Invertible> Groups<T> {
    /// No groups, with the memory to keep 256 of them in each list.
    pub fn new(alloc: Global) -> Result<Groups<T>, AllocError>
        ensures empty { IfOk result (λ groups. (groups.earlier ≡ []) × (groups.undone ≡ [])) }
        ensures of_any { IfOk result (λ groups. (v : T.Value) → AreOf T.meaning v groups) }
        ensures few { IfOk result IsFew }
    {
        Ok(Groups {
            earlier: VecDeque::with_capacity(alloc, MOST_GROUPS)?,
            undone: VecDeque::with_capacity(alloc, MOST_GROUPS)?,
            alloc,
        })
    }

    /// Runs the operations, all or none, each expanded on what the earlier ones leave.
    ///
    /// The group is refused with the first operation that is refused there, and its place from 0. Else one group is
    /// kept of it, the oldest of 257 is dropped, and nothing is left to redo.
    pub fn run_group(&mut self, target: &mut T, ops: &[T::Op]) -> Result<(), GroupFault<T::Why>>
        requires countable { length ops.now < 2 ^ 32 }
        requires of_target { AreOf T.meaning (T.value target.old) self.old }

        ensures answer { AnswersGroup (expanded T.expansion T.after target.old ops.now) result }
        ensures done { OnOk result ((prims : List T.Prim) × (expanded T.expansion T.after target.old ops.now ≡ Ok prims)
            × Applies T.after T.value T.meaning Way.Run prims target.old target.new self.old self.new) }
        ensures refused { OnErr result ((target.new ≡ target.old) × (self.new ≡ self.old)) }

        ensures past { OnOk result (Steps Way.Run (past_of T.meaning (T.value target.old) self.old) (past_of T.meaning (T.value target.new) self.new)) }
        ensures of_target { AreOf T.meaning (T.value target.new) self.new }
        ensures few { IsFew self.new }
    {
        let ready = self.ready_group(target, ops)?;
        self.commit(target, ready);
        Ok(())
    }

    /// Goes back to the value before the last group that was run or redone. Refused where none is kept.
    pub fn undo(&mut self, target: &mut T) -> Result<(), UndoFault>
        requires of_target { AreOf T.meaning (T.value target.old) self.old }

        ensures nothing { (result ≡ Err UndoFault.NothingToUndo) ↔ (self.old.earlier ≡ []) }
        ensures done { OnOk result ((prims : List T.Prim)
            × Applies T.after T.value T.meaning Way.Undo prims target.old target.new self.old self.new) }
        ensures refused { OnErr result ((target.new ≡ target.old) × (self.new ≡ self.old)) }

        ensures past { OnOk result (Steps Way.Undo (past_of T.meaning (T.value target.old) self.old) (past_of T.meaning (T.value target.new) self.new)) }
        ensures of_target { AreOf T.meaning (T.value target.new) self.new }
        ensures few { IsFew self.new }
    {
        let ready = self.ready_undo(target)?;
        self.commit(target, ready);
        Ok(())
    }

    /// Goes on to the value that was undone last. Refused where nothing was undone since the last run.
    pub fn redo(&mut self, target: &mut T) -> Result<(), RedoFault>
        requires of_target { AreOf T.meaning (T.value target.old) self.old }

        ensures nothing { (result ≡ Err RedoFault.NothingToRedo) ↔ (self.old.undone ≡ []) }
        ensures done { OnOk result ((prims : List T.Prim)
            × Applies T.after T.value T.meaning Way.Redo prims target.old target.new self.old self.new) }
        ensures refused { OnErr result ((target.new ≡ target.old) × (self.new ≡ self.old)) }

        ensures past { OnOk result (Steps Way.Redo (past_of T.meaning (T.value target.old) self.old) (past_of T.meaning (T.value target.new) self.new)) }
        ensures of_target { AreOf T.meaning (T.value target.new) self.new }
        ensures few { IsFew self.new }
    {
        let ready = self.ready_redo(target)?;
        self.commit(target, ready);
        Ok(())
    }

    /// Makes ready what `run_group` would do, or refuses as it would. The step is then done by `commit`.
    pub fn ready_group(&self, target: &T, ops: &[T::Op]) -> Result<Ready<T>, GroupFault<T::Why>>
        requires { length ops.now < 2 ^ 32 }

        ensures answer { AnswersGroup (expanded T.expansion T.after target.now ops.now) result }
        ensures way { IfOk result (λ ready. ready.way ≡ Way.Run) }
        ensures prims { IfOk result (λ ready. expanded T.expansion T.after target.now ops.now ≡ Ok ready.prims) }
        ensures ready { IfOk result (λ ready. IsReadyFor T.after T.value T.meaning target.now self.now ready) }
        ensures few { IsFew self.now }
    {
        Ready::of_group(self.alloc, target, ops)
    }

    /// Makes ready what `undo` would do, or refuses as it would. The step is then done by `commit`.
    pub fn ready_undo(&self, target: &T) -> Result<Ready<T>, UndoFault>
        requires of_target { AreOf T.meaning (T.value target.now) self.now }

        ensures nothing { (result ≡ Err UndoFault.NothingToUndo) ↔ (self.now.earlier ≡ []) }
        ensures way { IfOk result (λ ready. ready.way ≡ Way.Undo) }
        ensures ready { IfOk result (λ ready. IsReadyFor T.after T.value T.meaning target.now self.now ready) }
        ensures few { IsFew self.now }
    {
        match last_of(&self.earlier) {
            Some(group) => Ok(Ready::of_kept(self.alloc, Way::Undo, target, group)?),
            None => Err(UndoFault::NothingToUndo),
        }
    }

    /// Makes ready what `redo` would do, or refuses as it would. The step is then done by `commit`.
    pub fn ready_redo(&self, target: &T) -> Result<Ready<T>, RedoFault>
        requires of_target { AreOf T.meaning (T.value target.now) self.now }

        ensures nothing { (result ≡ Err RedoFault.NothingToRedo) ↔ (self.now.undone ≡ []) }
        ensures way { IfOk result (λ ready. ready.way ≡ Way.Redo) }
        ensures ready { IfOk result (λ ready. IsReadyFor T.after T.value T.meaning target.now self.now ready) }
        ensures few { IsFew self.now }
    {
        match last_of(&self.undone) {
            Some(group) => Ok(Ready::of_kept(self.alloc, Way::Redo, target, group)?),
            None => Err(RedoFault::NothingToRedo),
        }
    }

    /// Does a step that was made ready for this target and these lists, as they still are. It takes no memory, so
    /// it cannot fail.
    pub fn commit(&mut self, target: &mut T, ready: Ready<T>)
        requires of_target { AreOf T.meaning (T.value target.old) self.old }
        requires ready { IsReadyFor T.after T.value T.meaning target.old self.old ready }

        ensures done { Applies T.after T.value T.meaning ready.way ready.prims target.old target.new self.old self.new }
        ensures past { Steps ready.way (past_of T.meaning (T.value target.old) self.old) (past_of T.meaning (T.value target.new) self.new) }
        ensures of_target { AreOf T.meaning (T.value target.new) self.new }
        ensures few { IsFew self.new }
    {
        let (way, changed, kept) = ready.into_parts();
        *target = changed;
        self.keep(way, kept);
    }

    // Moves the groups as a step of this way does.
    fn keep(&mut self, way: Way, kept: Group<T::Prim>)
        ensures moves { (prims : List T.Prim) → IsNext way prims self.old → Moves way prims kept self.old self.new }
        ensures few { IsFew self.new }
    {
        match way {
            Way::Run => self.append(kept),
            Way::Undo => self.put_undone(kept),
            Way::Redo => self.put_earlier(kept),
        }
    }

    // Appends a new group to the earlier ones, drops the oldest of 257, and empties the undone list.
    fn append(&mut self, kept: Group<T::Prim>)
        ensures moves { (prims : List T.Prim) → IsNext Way.Run prims self.old → Moves Way.Run prims kept self.old self.new }
        ensures few { IsFew self.new }
    {
        self.undone.clear();
        if self.earlier.len() == MOST_GROUPS {
            let _oldest = self.earlier.pop_front();
        }
        self.earlier.push_back_reserved(kept);
    }

    // Takes the last earlier group, and appends the kept one to the undone list.
    fn put_undone(&mut self, kept: Group<T::Prim>)
        ensures moves { (prims : List T.Prim) → IsNext Way.Undo prims self.old → Moves Way.Undo prims kept self.old self.new }
        ensures few { IsFew self.new }
    {
        if let Some(_group) = self.earlier.pop_back() {
            self.undone.push_back_reserved(kept);
        }
    }

    // Takes the last undone group, and appends the kept one to the earlier ones.
    fn put_earlier(&mut self, kept: Group<T::Prim>)
        ensures moves { (prims : List T.Prim) → IsNext Way.Redo prims self.old → Moves Way.Redo prims kept self.old self.new }
        ensures few { IsFew self.new }
    {
        if let Some(_group) = self.undone.pop_back() {
            self.earlier.push_back_reserved(kept);
        }
    }
}
