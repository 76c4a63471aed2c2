//! A desk at its last versions, a list of commands, and a group of two edits.

ghost use Rattle.std.specs.Prelude.{IfOk};
ghost use Rattle.std.specs.List.{AllByRecursion as Each};
ghost use Rattle.doc_model.specs.Plain.{IsPlain};
ghost use Rattle.edit_ops.specs.PlainOps.{IsPlainOp};

use desk::Desk;
use desk_model::{Command, Reply};
use doc_model::{Document, EditOp, Group, List, ParId, Refusal};
use edit_ops::{EditFault, edited_by_group};
use fodt_read::load_plain;
use spelling_model::{BODY, ROOT, ROOT_END, TAIL};
use std::alloc::{AllocError, Global};
use std::test::Fail;

// The document whose one paragraph is `hello`.
fn hello(alloc: Global) -> Result<Document, Fail>
    ensures { IfOk result IsPlain }
{
    let file = format!(in alloc; "{ROOT}{ROOT_END}{BODY}<text:p>hello</text:p>{TAIL}")?;
    Ok(load_plain(alloc, file.as_bytes())?)
}

fn delete(from: u32, to: u32) -> EditOp
    ensures { IsPlainOp result }
{
    EditOp::DeleteRange {
        par: ParId(1),
        from,
        to,
    }
}

// Two deletes, from 1 to these places.
fn two_deletes(alloc: Global, first: u32, second: u32) -> Result<Group, AllocError>
    ensures { IfOk result (λ group. Each IsPlainOp group.0) }
{
    let mut ops = List::new(alloc);
    ops.push(delete(1, first))?;
    ops.push(delete(1, second))?;
    Ok(Group(ops))
}

// What two deletes are answered.
fn edit(alloc: Global, desk: &mut Desk, first: u32, second: u32) -> Result<Reply, AllocError> {
    let group = two_deletes(alloc, first, second)?;
    desk.edit(&group)
}

// Why two deletes of a document are refused, if they are.
fn refusal(
    alloc: Global,
    doc: &Document,
    first: u32,
    second: u32,
) -> Result<Option<EditFault>, AllocError>
    requires { IsPlain doc.now }
{
    let group = two_deletes(alloc, first, second)?;
    Ok(edited_by_group(alloc, doc, &group).err())
}

// Whether the reply is the expected one.
fn is(reply: Result<Reply, AllocError>, expected: Reply) -> bool {
    match reply {
        Ok(reply) => reply == expected,
        Err(_) => false,
    }
}

// Whether a desk answers commands one after another, and has no page count before its pages are settled.
fn answers_in_order(alloc: Global) -> Result<bool, Fail> {
    let mut desk = Desk::start(alloc, hello(alloc)?)?;
    let replies = desk.answer(&[Command::Debt, Command::Take, Command::Version])?;
    let expected = [Reply::Debt(20), Reply::Moved(19), Reply::Version(1)];
    Ok(replies.get() == expected.as_slice() && desk.page_count().is_none())
}

// Whether a second edit is refused on what the first makes.
fn refuses_the_second(alloc: Global) -> Result<bool, Fail> {
    let doc = hello(alloc)?;
    let why = Refusal::PastEnd(ParId(1), 2);
    let expected = Some(EditFault::Refused { index: 1, why });
    Ok(refusal(alloc, &doc, 4, 3)? == expected)
}

#[test]
fn edits_are_answered_in_order_up_to_the_greatest_version(rt: HostRuntime) -> Result<(), Fail> {
    let alloc = rt.alloc();
    assert!(rt; answers_in_order(alloc)?);
    assert!(rt; refuses_the_second(alloc)?);
    let mut desk = Desk::start_at(alloc, hello(alloc)?, 4294967294)?;
    assert!(rt; is(edit(alloc, &mut desk, 2, 3), Reply::Changed(4294967295)));
    assert!(rt; is(edit(alloc, &mut desk, 1, 1), Reply::Changes(4294967295)));
    assert!(rt; is(desk.undo(), Reply::Changes(4294967295)));
    let mut last = Desk::start_at(alloc, hello(alloc)?, 4294967295)?;
    assert!(rt; is(edit(alloc, &mut last, 1, 1), Reply::Changes(4294967295)));
    assert!(rt; is(last.undo(), Reply::NothingToUndo));
    assert!(rt; is(last.redo(), Reply::NothingToRedo));
    Ok(())
}
