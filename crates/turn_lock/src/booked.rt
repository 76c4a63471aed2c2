//! What a lock leaves behind.
ghost use Rattle.std.specs.Prelude.{◌≡◌};

use crate::book::Book;
use crate::machine::{Entry, Machine};
use crate::seat::Seat;
use std::snapshot::Snapshot;

/// The machine of a closed lock, with the journal of all its calls. Only `TurnLock::close` makes one.
#[derive(Drop)]
pub struct Booked<M: Machine> {
    pub(crate) book: Book<M>,
    /// The seat that closed the lock, for contracts alone.
    pub(crate) seat: Snapshot<Seat<M>>,
}

impl<M: Machine> Booked<M> {
    ghost use Rattle.turn_lock.specs.Seats.{machine_of, journal_of};

    pub fn machine(&self) -> &M
        ensures { result.now ≡ machine_of self.now }
    {
        &self.book.machine
    }

    /// All entries, in the order of their numbers.
    pub fn journal(&self) -> &[Entry<M>]
        ensures { result.now ≡ journal_of self.now }
    {
        self.book.journal.as_slice()
    }
}
