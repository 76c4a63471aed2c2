//! What idle turns answer.

use line_model::{Job, Stamp};

/// What an idle turn took.
#[derive(Debug, Drop, PartialEq, Eq)]
pub enum Taken {
    /// Nothing is left to do.
    Settled,
    /// A stop was passed; this is the debt that is left.
    Moved(u32),
    /// Lines are wanted.
    Job(Job),
}

/// What became of the lines of a job.
#[derive(Debug, Drop, PartialEq, Eq)]
pub enum Published {
    /// The paragraph or the styles changed since the job was taken.
    Stale {
        /// The job's stamp.
        had: Stamp,
        /// The present one, where the paragraph is there.
        now: Option<Stamp>,
    },
    /// The lines of this key are kept.
    Already,
    /// The lines are kept from now on; this is the debt that is left.
    Entered(u32),
}
