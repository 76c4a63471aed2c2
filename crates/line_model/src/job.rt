//! Jobs: keys whose lines are wanted, and lines that were formed for one.

ghost use Rattle.std.specs.Prelude.{◌≡◌, IfOk, IsTrue, ◌↔◌};
ghost use Rattle.line_model.specs.Lines.{lines_of};

use crate::key::{Key, Line};
use doc_model::{List, ParId};
use std::alloc::AllocError;
use std::marker::Model;

/// The versions at which a paragraph, and the styles, last changed.
#[derive(Debug, Clone, Copy, PartialEq, Eq)]
pub struct Stamp {
    /// That of the paragraph.
    pub revision: u32,
    /// That of the styles.
    pub epoch: u32,
}

/// A key whose lines are wanted.
#[derive(Debug, Drop, PartialEq, Eq)]
pub struct Job {
    /// The paragraph.
    pub par: ParId,
    /// When the key was taken.
    pub stamp: Stamp,
    /// The key.
    pub key: Key,
}

/// A job with the lines of its key. Contracts see the job, since the lines follow from it.
#[derive(Debug, Drop)]
pub struct Formed {
    job: Job,
    lines: List<Line>,
}

impl Model for Formed {
    ghost use Rattle.std.specs.Prelude.{◌≡◌};
    ghost use Rattle.line_model.specs.declared.job.Job.{Job};
    ghost use Rattle.line_model.specs.Lines.{lines_of};

    ghost Value = { Job };

    ghost view = { λ f. f.job };

    ghost invariant = { λ f. f.lines ≡ lines_of f.job.key };
}

impl Job {
    pub fn copy(&self) -> Result<Job, AllocError>
        ensures { IfOk result (λ c. c ≡ self.now) }
    {
        Ok(Job {
            par: self.par,
            stamp: self.stamp,
            key: self.key.copy()?,
        })
    }
}

impl Formed {
    /// The job with its lines. It takes no memory.
    pub fn of(job: Job, lines: List<Line>) -> Formed
        requires { lines ≡ lines_of job.key }
        ensures { result ≡ job }
    {
        Formed { job, lines }
    }

    /// The job, lent.
    pub fn job(&self) -> &Job
        ensures { result.now ≡ self.now }
    {
        &self.job
    }

    /// The lines of the job's key, lent.
    pub fn lines(&self) -> &[Line]
        ensures { result.now ≡ lines_of self.now.key }
    {
        self.lines.get()
    }

    pub fn copy(&self) -> Result<Formed, AllocError>
        ensures { IfOk result (λ c. c ≡ self.now) }
    {
        let job = self.job.copy()?;
        let lines = List::from_slice(self.lines.allocator(), self.lines.get())?;
        Ok(Formed { job, lines })
    }
}

impl Stamp {
    pub fn is_same(&self, other: &Stamp) -> bool
        ensures { IsTrue result ↔ (self.now ≡ other.now) }
    {
        if self.revision != other.revision {
            return false;
        }
        self.epoch == other.epoch
    }
}
