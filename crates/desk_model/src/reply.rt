//! What the desk answers.

ghost use Rattle.std.specs.Prelude.{◌≡◌, IfOk};
ghost use Rattle.desk_model.specs.Desk.{taken_reply, published_reply};

use doc_model::{Blob, Page, ParId, Refusal, Txt};
use line_model::{Job, Stamp};
use round_model::{Published, Taken};
use std::alloc::AllocError;

/// The desk's answer to a command.
#[derive(Debug, Drop, PartialEq, Eq)]
pub enum Reply {
    /// The document changed; this is its new version.
    Changed(u32),
    /// An edit of a group is refused, and so the whole group.
    Refused {
        /// How many edits of the group stand before it.
        index: u32,
        /// Why.
        why: Refusal,
    },
    /// There is no change to take back.
    NothingToUndo,
    /// There is no change to do again.
    NothingToRedo,
    /// The version is this number, the greatest, and so no change is made.
    Changes(u32),
    /// Nothing is left to do.
    Settled,
    /// A stop was passed; this is the debt that is left.
    Moved(u32),
    /// Lines are wanted.
    Job(Job),
    /// The paragraph or the styles changed since the job was taken.
    Stale {
        /// The job's stamp.
        had: Stamp,
        /// The present one, where the paragraph is there.
        now: Option<Stamp>,
    },
    /// The lines of this key are kept.
    Already,
    /// The lines are kept from now on; this is the debt that is left.
    Entered(u32),
    /// A page, and how many there are.
    Page(Page, u32),
    /// The pages are not known before this debt is done.
    NotYet(u32),
    /// There is no such page; this is how many there are.
    NoPage(u32),
    /// The text of a paragraph.
    Text(Txt),
    /// There is no such paragraph.
    NoPar(ParId),
    /// The bytes of the document.
    Saved(Blob),
    /// A snapshot of this version was made.
    Snapped(u32),
    /// The debt.
    Debt(u32),
    /// The version.
    Version(u32),
}

impl Reply {
    /// The reply that tells what an idle turn took. It takes no memory.
    pub fn of_taken(taken: Taken) -> Reply
        ensures { result ≡ taken_reply taken }
    {
        match taken {
            Taken::Settled => Reply::Settled,
            Taken::Moved(debt) => Reply::Moved(debt),
            Taken::Job(job) => Reply::Job(job),
        }
    }

    /// The reply that tells what became of the lines of a job. It takes no memory.
    pub fn of_published(published: Published) -> Reply
        ensures { result ≡ published_reply published }
    {
        match published {
            Published::Stale { had, now } => Reply::Stale { had, now },
            Published::Already => Reply::Already,
            Published::Entered(debt) => Reply::Entered(debt),
        }
    }

    pub fn copy(&self) -> Result<Reply, AllocError>
        ensures { IfOk result (λ c. c ≡ self.now) }
    {
        match self {
            Reply::Changed(version) => Ok(Reply::Changed(*version)),
            Reply::Refused { index, why } => Ok(Reply::Refused {
                index: *index,
                why: why.copy()?,
            }),
            Reply::NothingToUndo => Ok(Reply::NothingToUndo),
            Reply::NothingToRedo => Ok(Reply::NothingToRedo),
            Reply::Changes(count) => Ok(Reply::Changes(*count)),
            Reply::Settled => Ok(Reply::Settled),
            Reply::Moved(debt) => Ok(Reply::Moved(*debt)),
            Reply::Job(job) => Ok(Reply::Job(job.copy()?)),
            Reply::Stale { had, now } => Ok(Reply::Stale {
                had: *had,
                now: *now,
            }),
            Reply::Already => Ok(Reply::Already),
            Reply::Entered(debt) => Ok(Reply::Entered(*debt)),
            Reply::Page(page, count) => Ok(Reply::Page(page.copy()?, *count)),
            Reply::NotYet(debt) => Ok(Reply::NotYet(*debt)),
            Reply::NoPage(count) => Ok(Reply::NoPage(*count)),
            Reply::Text(text) => Ok(Reply::Text(text.copy()?)),
            Reply::NoPar(par) => Ok(Reply::NoPar(*par)),
            Reply::Saved(bytes) => Ok(Reply::Saved(bytes.copy()?)),
            Reply::Snapped(version) => Ok(Reply::Snapped(*version)),
            Reply::Debt(debt) => Ok(Reply::Debt(*debt)),
            Reply::Version(version) => Ok(Reply::Version(*version)),
        }
    }
}
