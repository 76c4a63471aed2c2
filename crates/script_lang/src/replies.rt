//! Replies as they are printed.

ghost use Rattle.std.specs.Prelude.{◌≡◌, ◌++◌, length, take, codes, chars, decimal, OnOk, OnErr};
ghost use Rattle.desk_model.specs.Replies.{numbered_words, reply_words, no_job_words, settled_words, stamp_words, now_words, quoted};

use crate::pages::push_page;
use crate::printing::{
    all_or_nothing, push_bytes, push_decimal, push_number_line, push_two_numbers, push_word_number,
};
use crate::quotes::push_quoted;
use crate::refusals::push_refused;
use desk_model::Reply;
use line_model::{Job, Stamp};
use std::alloc::AllocError;

/// Prints a reply behind the number of its line, with a line feed at its end; saved bytes follow that as they are.
pub fn push_reply(out: &mut Vec<u8>, line: u32, reply: &Reply) -> Result<(), AllocError>
    ensures ok { OnOk result (out.new.items ≡ out.old.items ++ numbered_words line (reply_words reply.now)) }
    ensures kept { OnErr result (out.new.items ≡ out.old.items) }
{
    let start = out.len();
    let pushed = push_numbered(out, line, reply);
    all_or_nothing(out, start, pushed)
}

/// Prints, behind the number of its line, that no job is kept under the name of a `publish`.
pub fn push_no_job(out: &mut Vec<u8>, line: u32) -> Result<(), AllocError>
    ensures ok { OnOk result (out.new.items ≡ out.old.items ++ numbered_words line no_job_words) }
    ensures kept { OnErr result (out.new.items ≡ out.old.items) }
{
    let start = out.len();
    let pushed = push_numbered_none(out, line);
    all_or_nothing(out, start, pushed)
}

/// Prints, behind the number of its line, how many turns a `settle` made.
pub fn push_settled(out: &mut Vec<u8>, line: u32, turns: u32) -> Result<(), AllocError>
    ensures ok { OnOk result (out.new.items ≡ out.old.items ++ numbered_words line (settled_words turns)) }
    ensures kept { OnErr result (out.new.items ≡ out.old.items) }
{
    let start = out.len();
    let pushed = push_numbered_turns(out, line, turns);
    all_or_nothing(out, start, pushed)
}

fn push_numbered(out: &mut Vec<u8>, line: u32, reply: &Reply) -> Result<(), AllocError>
    ensures ok { OnOk result (out.new.items ≡ out.old.items ++ numbered_words line (reply_words reply.now)) }
    ensures front { take (length out.old.items) out.new.items ≡ out.old.items }
{
    push_line_number(out, line)?;
    push_words(out, reply)
}

fn push_numbered_none(out: &mut Vec<u8>, line: u32) -> Result<(), AllocError>
    ensures ok { OnOk result (out.new.items ≡ out.old.items ++ numbered_words line no_job_words) }
    ensures front { take (length out.old.items) out.new.items ≡ out.old.items }
{
    push_line_number(out, line)?;
    push_bytes(out, b"none\n")
}

fn push_numbered_turns(out: &mut Vec<u8>, line: u32, turns: u32) -> Result<(), AllocError>
    ensures ok { OnOk result (out.new.items ≡ out.old.items ++ numbered_words line (settled_words turns)) }
    ensures front { take (length out.old.items) out.new.items ≡ out.old.items }
{
    push_line_number(out, line)?;
    push_number_line(out, b"settled", turns)
}

fn push_line_number(out: &mut Vec<u8>, line: u32) -> Result<(), AllocError>
    ensures ok { OnOk result (out.new.items ≡ out.old.items ++ (decimal line ++ codes ": ")) }
    ensures front { take (length out.old.items) out.new.items ≡ out.old.items }
{
    push_decimal(out, line)?;
    push_bytes(out, b": ")
}

fn push_words(out: &mut Vec<u8>, reply: &Reply) -> Result<(), AllocError>
    ensures ok { OnOk result (out.new.items ≡ out.old.items ++ reply_words reply.now) }
    ensures front { take (length out.old.items) out.new.items ≡ out.old.items }
{
    match reply {
        Reply::Changed(version) => push_number_line(out, b"changed", *version),
        Reply::Refused { index, why } => push_refused(out, *index, why),
        Reply::NothingToUndo => push_bytes(out, b"nothing-to-undo\n"),
        Reply::NothingToRedo => push_bytes(out, b"nothing-to-redo\n"),
        Reply::Changes(number) => push_number_line(out, b"changes", *number),
        Reply::Settled => push_bytes(out, b"settled\n"),
        Reply::Moved(debt) => push_number_line(out, b"moved", *debt),
        Reply::Job(job) => push_job(out, job),
        Reply::Stale { had, now } => push_stale(out, *had, *now),
        Reply::Already => push_bytes(out, b"already\n"),
        Reply::Entered(debt) => push_number_line(out, b"entered", *debt),
        Reply::Page(page, count) => push_page(out, page, *count),
        Reply::NotYet(debt) => push_number_line(out, b"not-yet", *debt),
        Reply::NoPage(count) => push_number_line(out, b"no-page", *count),
        Reply::Text(text) => push_text(out, text.get()),
        Reply::NoPar(par) => push_number_line(out, b"no-par", par.0),
        Reply::Saved(bytes) => push_saved(out, bytes.get()),
        Reply::Snapped(version) => push_number_line(out, b"snapped", *version),
        Reply::Debt(debt) => push_number_line(out, b"debt", *debt),
        Reply::Version(version) => push_number_line(out, b"version", *version),
    }
}

fn push_saved(out: &mut Vec<u8>, bytes: &[u8]) -> Result<(), AllocError>
    ensures ok { OnOk result (out.new.items ≡ out.old.items
        ++ (codes "saved " ++ (decimal (length bytes.now) ++ (codes "\n" ++ bytes.now)))) }
    ensures front { take (length out.old.items) out.new.items ≡ out.old.items }
{
    push_bytes(out, b"saved ")?;
    push_decimal(out, bytes.len())?;
    push_bytes(out, b"\n")?;
    push_bytes(out, bytes)
}

fn push_text(out: &mut Vec<u8>, text: &str) -> Result<(), AllocError>
    ensures ok { OnOk result (out.new.items ≡ out.old.items ++ (codes "text " ++ (quoted (chars text.now) ++ codes "\n"))) }
    ensures front { take (length out.old.items) out.new.items ≡ out.old.items }
{
    push_bytes(out, b"text ")?;
    push_quoted(out, text)?;
    push_bytes(out, b"\n")
}

fn push_job(out: &mut Vec<u8>, job: &Job) -> Result<(), AllocError>
    ensures ok { OnOk result (out.new.items ≡ out.old.items
        ++ (codes "job " ++ (decimal job.now.par.0 ++ (codes " " ++ (stamp_words job.now.stamp ++ codes "\n"))))) }
    ensures front { take (length out.old.items) out.new.items ≡ out.old.items }
{
    push_word_number(out, b"job ", job.par.0)?;
    push_bytes(out, b" ")?;
    push_stamp(out, job.stamp)?;
    push_bytes(out, b"\n")
}

fn push_stale(out: &mut Vec<u8>, had: Stamp, now: Option<Stamp>) -> Result<(), AllocError>
    ensures ok { OnOk result (out.new.items ≡ out.old.items
        ++ (codes "stale had " ++ (stamp_words had ++ (codes " now " ++ (now_words now ++ codes "\n"))))) }
    ensures front { take (length out.old.items) out.new.items ≡ out.old.items }
{
    push_bytes(out, b"stale had ")?;
    push_stamp(out, had)?;
    push_bytes(out, b" now ")?;
    push_now(out, now)?;
    push_bytes(out, b"\n")
}

/// The present stamp, or that the paragraph is gone.
fn push_now(out: &mut Vec<u8>, now: Option<Stamp>) -> Result<(), AllocError>
    ensures ok { OnOk result (out.new.items ≡ out.old.items ++ now_words now) }
    ensures front { take (length out.old.items) out.new.items ≡ out.old.items }
{
    match now {
        Some(stamp) => push_stamp(out, stamp),
        None => push_bytes(out, b"none"),
    }
}

fn push_stamp(out: &mut Vec<u8>, stamp: Stamp) -> Result<(), AllocError>
    ensures ok { OnOk result (out.new.items ≡ out.old.items ++ stamp_words stamp) }
    ensures front { take (length out.old.items) out.new.items ≡ out.old.items }
{
    push_two_numbers(out, b"", stamp.revision, stamp.epoch)
}
