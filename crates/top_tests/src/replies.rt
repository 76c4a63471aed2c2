//! Replies that no script over a plain document is answered, and an edit, as they are printed.

use desk_model::{Reply, ScriptCommand};
use doc_model::{EditOp, List, Page, ParId, Refusal, Txt};
use line_model::Stamp;
use script_lang::{ScriptFault, print_op, push_reply, read_script};
use std::alloc::{AllocError, Global};
use std::test::Fail;

// Whether this is printed for a reply at line 3.
fn is_printed(alloc: Global, reply: &Reply, text: &str) -> Result<bool, AllocError> {
    let mut out = Vec::new(alloc);
    push_reply(&mut out, 3, reply)?;
    Ok(out.as_slice() == text.as_bytes())
}

fn text_of(alloc: Global, text: &str) -> Result<Txt, AllocError> {
    Ok(Txt::from_list(String::from_str(alloc, text)?))
}

// A page of two rows, the second of which is empty.
fn page(alloc: Global) -> Result<Page, AllocError> {
    let mut rows = List::new(alloc);
    rows.push(text_of(alloc, "\u{e4} b")?)?;
    rows.push(text_of(alloc, "")?)?;
    Ok(Page {
        index: 1,
        number: 7,
        rows,
    })
}

// Whether an edit is a deletion that is printed as this line.
fn is_deletion(alloc: Global, edit: &EditOp, line: &str) -> Result<bool, AllocError> {
    match edit {
        EditOp::DeleteRange { .. } => Ok(print_op(alloc, edit)?.get() == line),
        _ => Ok(false),
    }
}

// Whether a command is an edit that is printed as this line.
fn is_edit(alloc: Global, command: &ScriptCommand, line: &str) -> Result<bool, AllocError> {
    match command {
        ScriptCommand::Edit(group) => match group.0.get() {
            [edit] => is_deletion(alloc, edit, line),
            _ => Ok(false),
        },
        _ => Ok(false),
    }
}

// Whether a line of less than a hundred bytes is read as an edit, and the edit printed as the line.
fn is_printed_back(alloc: Global, line: &str) -> Result<bool, ScriptFault> {
    if line.len() >= 100 {
        return Ok(false);
    }
    let script = read_script(alloc, line.as_bytes())?;
    match script.get() {
        [only] => Ok(is_edit(alloc, &only.command, line)?),
        _ => Ok(false),
    }
}

#[test]
fn replies_and_edits_are_printed(rt: HostRuntime) -> Result<(), Fail> {
    let alloc = rt.alloc();
    assert!(rt; is_printed_back(alloc, "delete 3 4 5")?);
    let bad_char = Reply::Refused {
        index: 2,
        why: Refusal::BadChar(4),
    };
    let gone = Reply::Stale {
        had: Stamp {
            revision: 1,
            epoch: 2,
        },
        now: None,
    };
    let page = Reply::Page(page(alloc)?, 2);
    let text = Reply::Text(text_of(alloc, "a\"\\\n\t\u{1}\u{1f}\u{e9}")?);
    assert!(rt; is_printed(alloc, &bad_char, "3: refused 2 bad-char 4\n")?);
    assert!(rt;
        is_printed(
            alloc,
            &Reply::Changes(4294967295),
            "3: changes 4294967295\n"
        )?
    );
    assert!(rt; is_printed(alloc, &gone, "3: stale had 1 2 now none\n")?);
    assert!(rt; is_printed(alloc, &page, "3: page 1 of 2 number 7\n\u{e4} b\n\n")?);
    assert!(rt;
        is_printed(
            alloc,
            &text,
            "3: text \"a\\\"\\\\\\n\\t\\u{1}\\u{1f}\u{e9}\"\n"
        )?
    );
    Ok(())
}
