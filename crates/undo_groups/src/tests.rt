//! Groups over a list of numbers.
ghost use Rattle.std.specs.Prelude.{◌<◌, ◌^◌, length};
ghost use Rattle.undo_groups.specs.Past.{AreOf};

mod numbers;

use crate::{GroupFault, Groups, Invertible, RedoFault, Reply, Step, UndoFault, replay};
use numbers::{Numbers, Op, Prim, Why};
use std::alloc::AllocError;
use std::test::Fail;

/// What is done with a target and its groups.
#[derive(Clone, Copy)]
enum Act {
    Run,
    Undo,
    Redo,
}

/// What it is answered.
#[derive(Clone, Copy, Debug, PartialEq, Eq)]
enum Answer {
    Done,
    Refused(u32),
    Nothing,
}

// An act on [1, 2, 3] and what the acts before it made of it, the operations where it is a run, the answer, and
// the items after it.
const WALK: &[(Act, &[Op], Answer, &[u32])] = &[
    (Act::Undo, &[], Answer::Nothing, &[1, 2, 3]),
    (
        Act::Run,
        &[Op::Set { at: 0, number: 7 }, Op::Move { from: 0, to: 2 }],
        Answer::Done,
        &[2, 3, 7],
    ),
    (
        Act::Run,
        &[Op::Draw, Op::Draw],
        Answer::Done,
        &[2, 3, 7, 100, 101],
    ),
    (Act::Redo, &[], Answer::Nothing, &[2, 3, 7, 100, 101]),
    (Act::Undo, &[], Answer::Done, &[2, 3, 7]),
    (Act::Undo, &[], Answer::Done, &[1, 2, 3]),
    (Act::Redo, &[], Answer::Done, &[2, 3, 7]),
    (
        Act::Run,
        &[Op::Draw, Op::Set { at: 4, number: 0 }, Op::Draw],
        Answer::Refused(1),
        &[2, 3, 7],
    ),
    (Act::Redo, &[], Answer::Done, &[2, 3, 7, 100, 101]),
    (Act::Undo, &[], Answer::Done, &[2, 3, 7]),
    (
        Act::Run,
        &[Op::Insert { at: 0, number: 4 }, Op::Draw],
        Answer::Done,
        &[4, 2, 3, 7, 102],
    ),
    (Act::Redo, &[], Answer::Nothing, &[4, 2, 3, 7, 102]),
];

// Acts once.
fn act_once<T: Invertible>(
    groups: &mut Groups<T>,
    target: &mut T,
    act: Act,
    ops: &[T::Op],
) -> Result<Answer, AllocError>
    requires countable { length ops.now < 2 ^ 32 }
    requires of_target { AreOf T.meaning (T.value target.old) groups.old }
    ensures { AreOf T.meaning (T.value target.new) groups.new }
{
    match act {
        Act::Run => match groups.run_group(target, ops) {
            Ok(()) => Ok(Answer::Done),
            Err(GroupFault::Refused { index, why: _ }) => Ok(Answer::Refused(index)),
            Err(GroupFault::NoMemory) => Err(AllocError),
        },
        Act::Undo => match groups.undo(target) {
            Ok(()) => Ok(Answer::Done),
            Err(UndoFault::NothingToUndo) => Ok(Answer::Nothing),
            Err(UndoFault::NoMemory) => Err(AllocError),
        },
        Act::Redo => match groups.redo(target) {
            Ok(()) => Ok(Answer::Done),
            Err(RedoFault::NothingToRedo) => Ok(Answer::Nothing),
            Err(RedoFault::NoMemory) => Err(AllocError),
        },
    }
}

// Acts, and once more where there was no memory for it.
fn act_again<T: Invertible>(
    groups: &mut Groups<T>,
    target: &mut T,
    what: Act,
    ops: &[T::Op],
) -> Result<Answer, AllocError>
    requires countable { length ops.now < 2 ^ 32 }
    requires of_target { AreOf T.meaning (T.value target.old) groups.old }
    ensures { AreOf T.meaning (T.value target.new) groups.new }
{
    match act_once(groups, target, what, ops) {
        Err(_) => act_once(groups, target, what, ops),
        answer => answer,
    }
}

// Acts so often, and says how often it was done.
fn act_often<T: Invertible>(
    groups: &mut Groups<T>,
    target: &mut T,
    what: Act,
    ops: &[T::Op],
    times: u32,
) -> Result<u32, AllocError>
    requires countable { length ops.now < 2 ^ 32 }
    requires of_target { AreOf T.meaning (T.value target.old) groups.old }
    ensures { AreOf T.meaning (T.value target.new) groups.new }
{
    let mut done = 0u32;
    for _time in 0..times {
        if act_once(groups, target, what, ops)? == Answer::Done {
            done = done.saturating_add(1);
        }
    }
    Ok(done)
}

/// A target whose items can be compared.
trait Shown {
    fn shows(&self, items: &[u32]) -> bool;
}

impl Shown for Numbers {
    fn shows(&self, items: &[u32]) -> bool {
        self.items() == items
    }
}

// How many of the rows, from the first on, a target and its groups walk through as they say.
fn walked<T: Invertible + Shown>(
    groups: &mut Groups<T>,
    target: &mut T,
    rows: &[(Act, &[T::Op], Answer, &[u32])],
) -> Result<usize, AllocError>
    requires { AreOf T.meaning (T.value target.old) groups.old }
{
    let mut done = 0usize;
    for (what, ops, answer, items) in rows {
        if ops.len() > 10 {
            break;
        }
        if act_again(groups, target, *what, ops)? != *answer {
            break;
        }
        if !target.shows(items) {
            break;
        }
        done = done.saturating_add(1);
    }
    Ok(done)
}

// Where the Nth allocation fails, for any N, what is answered and made is the same.
#[test]
fn groups_are_run_undone_and_redone(rt: HostRuntime) -> Result<(), Fail> {
    let mut target = Numbers::from_slice(rt.alloc(), &[1, 2, 3])?;
    let mut groups = Groups::new(rt.alloc())?;
    assert_eq!(rt; walked(&mut groups, &mut target, WALK)?, WALK.len());
    Ok(())
}

const MANY: &[Op] = &[Op::Draw; 1000];

#[test]
fn the_oldest_of_257_groups_is_dropped(rt: HostRuntime) -> Result<(), Fail> {
    let mut target = Numbers::from_slice(rt.alloc(), &[])?;
    let mut groups = Groups::new(rt.alloc())?;
    assert_eq!(rt;
        act_often(&mut groups, &mut target, Act::Run, &[Op::Draw], 256)?,
        256
    );
    assert_eq!(rt;
        act_once(&mut groups, &mut target, Act::Run, MANY)?,
        Answer::Done
    );
    assert_eq!(rt; target.items().len(), 1256);
    assert_eq!(rt;
        act_often(&mut groups, &mut target, Act::Undo, &[], 257)?,
        256
    );
    assert_eq!(rt; target.items(), [100].as_slice());
    assert_eq!(rt;
        act_often(&mut groups, &mut target, Act::Redo, &[], 257)?,
        256
    );
    assert_eq!(rt; target.items().len(), 1256);
    Ok(())
}

// A value of this type may move to another thread.
fn crosses_threads<X: Send>(_value: &X) {}

#[test]
fn a_ready_step_is_done_by_its_commit(rt: HostRuntime) -> Result<(), Fail> {
    let mut target = Numbers::from_slice(rt.alloc(), &[5, 6])?;
    let mut groups = Groups::new(rt.alloc())?;
    let ready = groups.ready_group(&target, &[Op::Insert { at: 0, number: 4 }, Op::Draw])?;
    crosses_threads(&groups);
    crosses_threads(&ready);
    assert_eq!(rt; ready.target().items(), [4, 5, 6, 100].as_slice());
    groups.commit(&mut target, ready);
    let ready = groups.ready_undo(&target)?;
    assert_eq!(rt;
        ready.prims(),
        [Prim::Remove { at: 3 }, Prim::Remove { at: 0 }].as_slice()
    );
    groups.commit(&mut target, ready);
    assert_eq!(rt; target.items(), [5, 6].as_slice());
    let ready = groups.ready_redo(&target)?;
    groups.commit(&mut target, ready);
    assert_eq!(rt; target.items(), [4, 5, 6, 100].as_slice());
    Ok(())
}

#[test]
fn a_replay_replies_to_each_step(rt: HostRuntime) -> Result<(), Fail> {
    let target = Numbers::from_slice(rt.alloc(), &[1])?;
    let third = Op::Set { at: 2, number: 0 };
    let fifth = Op::Set { at: 4, number: 0 };
    let steps = [
        Step::Undo,
        Step::Run(Vec::from_array(rt.alloc(), [Op::Draw, Op::Draw, third])?),
        Step::Run(Vec::from_array(rt.alloc(), [fifth])?),
        Step::Undo,
        Step::Redo,
        Step::Redo,
    ];
    let played = replay(rt.alloc(), &target, &steps)?;
    let refused = Reply::Refused {
        index: 0,
        why: Why::PastEnd,
    };
    let replies = [
        Reply::NothingToUndo,
        Reply::Done,
        refused,
        Reply::Done,
        Reply::Done,
        Reply::NothingToRedo,
    ];
    assert_eq!(rt; played.replies.as_slice(), replies.as_slice());
    assert_eq!(rt; played.target.items(), [1, 100, 0].as_slice());
    let fault = GroupFault::Refused {
        index: 3,
        why: Why::PastEnd,
    };
    assert_eq!(rt;
        format!(in rt.alloc(); "{fault}")?.as_str(),
        "operation 3 is refused: past the end"
    );
    Ok(())
}
