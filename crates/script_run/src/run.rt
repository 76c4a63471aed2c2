//! A script as it runs.

ghost use Rattle.std.specs.Prelude.{◌≡◌, ◌++◌, OnOk, IfOk};
ghost use Rattle.std.specs.List.{AllByRecursion as Each};
ghost use Rattle.doc_model.specs.Plain.{IsPlain};
ghost use Rattle.desk_model.specs.declared.script.Numbered.{Numbered};
ghost use Rattle.desk_model.specs.declared.script.ScriptCommand.TheVariants as ScriptCommand;
ghost use Rattle.desk_model.specs.Replies.{reply_words, numbered_words};
ghost use Rattle.desk_model.specs.Runs.{turn, settle, after_command, script_text};
ghost use Rattle.script_run.specs.PlainScript.{IsPlainScriptCommand};

use desk::Desk;
use desk_model::{Numbered, Reply, ScriptCommand};
use doc_model::{Document, Name};
use indexmap::IndexMap;
use line_frames::form;
use line_model::Job;
use round_model::Taken;
use script_lang::{push_no_job, push_reply, push_settled};
use std::alloc::{AllocError, Global};
use std::marker::Model;

/// What a script prints over a plain document: the answers to its commands, from version 1 on.
///
/// A take keeps the job that it is answered under its name, in place of the one that was there; a publish forms the
/// lines of the job under its name, which stays there, and does nothing where none is. A turn takes, and forms and
/// publishes the job that it is answered, if one is; a settle makes turns until nothing is left to do, of which there
/// are at most 19 for each paragraph and one more. The only error is want of memory.
pub fn run_script(
    alloc: Global,
    doc: Document,
    commands: &[Numbered],
) -> Result<Vec<u8>, AllocError>
    requires plain { IsPlain doc }
    requires plain_commands { Each (λ (numbered : Numbered). IsPlainScriptCommand numbered.command) commands.now }
    ensures { IfOk result (λ text. text.items ≡ script_text doc commands.now) }
{
    let mut run = Run {
        desk: Desk::start(alloc, doc)?,
        jobs: IndexMap::new(alloc),
        alloc,
    };
    let mut text = Vec::new(alloc);
    'commands: for numbered in commands {
        run.answer(&mut text, numbered)?;
    }
    Ok(text)
}

/// A desk with the jobs that are kept under names.
#[derive(Debug, Drop)]
struct Run {
    desk: Desk,
    jobs: IndexMap<Name, Job>,
    alloc: Global,
}

impl Model for Run {
    ghost use Rattle.std.specs.Coded.{codes};
    ghost use Rattle.doc_model.specs.contracts.document.Document as contract;
    ghost use Rattle.desk_model.specs.Runs as runs;

    ghost Value = { runs.Run };

    ghost coded = { Prim.hlevel (codes, contract.the_row.coded) };

    ghost view = { λ r. record { state = r.desk; jobs = r.jobs.entries } };
}

impl Run {
    // Prints the answer to a command.
    fn answer(&mut self, text: &mut Vec<u8>, numbered: &Numbered) -> Result<(), AllocError>
        requires { IsPlainScriptCommand numbered.now.command }
        ensures printed { OnOk result (text.new.items
            ≡ text.old.items ++ numbered_words numbered.now.line (after_command self.old numbered.now.command).0) }
        ensures after { OnOk result (self.new ≡ (after_command self.old numbered.now.command).1) }
    {
        let line = numbered.line;
        let reply = match &numbered.command {
            ScriptCommand::Edit(group) => self.desk.edit(group)?,
            ScriptCommand::Undo => self.desk.undo()?,
            ScriptCommand::Redo => self.desk.redo()?,
            ScriptCommand::Take(name) => self.take(name)?,
            ScriptCommand::Publish(name) => return self.answer_publish(text, line, name),
            ScriptCommand::Turn => self.turn()?,
            ScriptCommand::Settle => {
                let turns = self.settle()?;
                return push_settled(text, line, turns);
            }
            ScriptCommand::Page(index) => self.desk.page(*index)?,
            ScriptCommand::Text(par) => self.desk.text(*par)?,
            ScriptCommand::Save => self.desk.save()?,
            ScriptCommand::Debt => Reply::Debt(self.desk.debt()),
            ScriptCommand::Version => Reply::Version(self.desk.version()),
        };
        push_reply(text, line, &reply)
    }

    // Takes, and keeps the job that is answered, if one is, under the name.
    fn take(&mut self, name: &Name) -> Result<Reply, AllocError>
        ensures { IfOk result (λ reply. (reply_words reply, self.new) ≡ after_command self.old (ScriptCommand.Take name.now)) }
    {
        match self.desk.take()? {
            Taken::Job(job) => {
                self.jobs.insert(name.copy()?, job.copy()?)?;
                Ok(Reply::Job(job))
            }
            passed => Ok(Reply::of_taken(passed)),
        }
    }

    // Publishes the lines of the job under the name, and prints the answer.
    fn answer_publish(
        &mut self,
        text: &mut Vec<u8>,
        line: u32,
        name: &Name,
    ) -> Result<(), AllocError>
        ensures printed { OnOk result (text.new.items
            ≡ text.old.items ++ numbered_words line (after_command self.old (ScriptCommand.Publish name.now)).0) }
        ensures after { OnOk result (self.new ≡ (after_command self.old (ScriptCommand.Publish name.now)).1) }
    {
        let Some(job) = self.jobs.get(name) else {
            return push_no_job(text, line);
        };
        let formed = form(self.alloc, job)?;
        let reply = Reply::of_published(self.desk.publish(&formed)?);
        push_reply(text, line, &reply)
    }

    // Takes, and forms and publishes the job that is answered, if one is.
    fn turn(&mut self) -> Result<Reply, AllocError>
        ensures ok { IfOk result (λ reply. (reply, self.new.state) ≡ turn self.old.state) }
        ensures jobs { self.new.jobs ≡ self.old.jobs }
    {
        match self.desk.take()? {
            Taken::Job(job) => {
                let formed = form(self.alloc, &job)?;
                Ok(Reply::of_published(self.desk.publish(&formed)?))
            }
            taken => Ok(Reply::of_taken(taken)),
        }
    }

    // Makes turns until nothing is left to do, and answers how many.
    fn settle(&mut self) -> Result<u32, AllocError>
        ensures ok { IfOk result (λ count. (count, self.new.state) ≡ settle self.old.state) }
        ensures jobs { OnOk result (self.new.jobs ≡ self.old.jobs) }
    {
        let mut count = 0;
        'turns: while self.desk.debt() != 0 {
            self.turn()?;
            count += 1;
        }
        Ok(count)
    }
}
