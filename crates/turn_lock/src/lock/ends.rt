//! How a lock is made, counted and closed, and how its seats are split and joined.
ghost use Rattle.std.specs.Prelude.{◌≡◌, ℕ, ◌+◌, ◌-◌, ◌<◌, ◌≤◌, [], ◌∷◌, ◌++◌, length, All, IfOk};
ghost use Rattle.turn_lock.specs.History.{state_after};
ghost use Rattle.turn_lock.specs.Numbers.{Has, SameNumbers, Gains, numbers_of};
ghost use Rattle.turn_lock.specs.Rule.{longer};

use super::TurnLock;
use crate::book::Book;
use crate::booked::Booked;
use crate::machine::Machine;
use crate::seat::Seat;
use crate::steps::{compare_seen, join_pass, load_count, split_pass};
use crate::view::Terms;
use atomic_table::{Refused, Table};
use std::alloc::{AllocError, Global};
use std::snapshot::Snapshot;

impl<M: Machine> TurnLock<M> {
    ghost use Rattle.turn_lock.specs.Seats.{IsOf, IsUntried, IsLegalIn, lock_id, closed_id, machine_of, journal_of, start_of, seats_of, limit_of, known, seen, tries, last_read, own_calls};

    /// A lock round a machine, for `seats` seats and a journal of at most `limit` entries, and its first seat.
    /// That one has the number 0 and has yet to give the others.
    pub fn new(
        alloc: Global,
        machine: M,
        seats: u32,
        limit: u32,
    ) -> Result<(TurnLock<M>, Seat<M>), AllocError>
        requires { 0 < seats }
        ensures terms { IfOk result (λ r. (start_of r.0 ≡ M.state machine) × (seats_of r.0 ≡ seats) × (limit_of r.0 ≡ limit)) }
        ensures seat { IfOk result (λ r. IsOf r.0 r.1 × (tries r.1 ≡ 0)) }
        ensures known { IfOk result (λ r. ((known r.1).number ≡ 0) × ((known r.1).left ≡ seats - 1) × ((known r.1).joined ≡ []) × (seen r.1 ≡ [])) }
    {
        let terms = Terms {
            start: Snapshot::of(&machine),
            seats,
            limit,
        };
        let mut slots = Vec::new(alloc);
        slots.push(Some(Book::new(alloc, machine)))?;
        match Table::new(alloc, &[0, 0], slots, &terms) {
            Ok((table, pass)) => {
                let seat = Seat {
                    pass,
                    number: 0,
                    left: seats - 1,
                };
                Ok((TurnLock { table, terms }, seat))
            }
            Err(Refused { slots: _ }) => Err(AllocError),
        }
    }

    /// How many entries there are at this moment, by one load. It waits for nobody and takes no memory.
    pub fn count(&self, seat: &mut Seat<M>) -> u32
        requires { IsOf self.now seat.old }
        ensures seat { IsOf self.now seat.new × SameNumbers (known seat.old) (known seat.new) × IsUntried seat.old seat.new }
        ensures count { (result ≡ length (seen seat.new)) × (length (seen seat.old) ≤ result) }
        ensures legal { IsLegalIn self.now (seen seat.new) × (result ≤ limit_of self.now) }
        // The seat's history grows by entries of none of its numbers.
        ensures gained { Gains (known seat.old) (seen seat.new) }
        ensures own { own_calls seat.new ≡ own_calls seat.old }
    {
        load_count(&self.table.shared, &mut seat.pass) as u32
    }

    /// A new seat, with the last of the numbers that the old one has yet to give, which has seen as much and made no call.
    /// It waits for nobody and takes no memory.
    pub fn split(&self, seat: &mut Seat<M>) -> Seat<M>
        requires seat { IsOf self.now seat.old }
        requires more { 0 < (known seat.old).left }
        ensures old { IsOf self.now seat.new × (known seat.new ≡ record (known seat.old) { left = (known seat.old).left - 1 }) × IsUntried seat.old seat.new }
        ensures new { IsOf self.now result × (known result ≡ record (known seat.old) { number = (known seat.old).left; left = 0; joined = [] }) × (tries result ≡ 0) }
        ensures fresh { own_calls result ≡ [] }
        ensures room { length (seen result) ≤ limit_of self.now }
    {
        let pass = split_pass(&self.table.shared, &mut seat.pass);
        let number = seat.left;
        seat.left -= 1;
        Seat {
            pass,
            number,
            left: 0,
        }
    }

    /// Ends the other seat. This one keeps the longer of the two histories, and has the other's numbers as joined ones.
    /// It waits for nobody and takes no memory.
    pub fn join(&self, seat: &mut Seat<M>, other: Seat<M>)
        requires seat { IsOf self.now seat.old }
        requires other { IsOf self.now other }
        ensures seat { IsOf self.now seat.new × IsUntried seat.old seat.new }
        ensures numbers { ((known seat.new).number ≡ (known seat.old).number) × ((known seat.new).left ≡ (known seat.old).left) × ((known seat.new).joined ≡ (known seat.old).joined ++ numbers_of (known other)) }
        ensures longer { seen seat.new ≡ longer (seen seat.old) (seen other) }
        ensures room { length (seen seat.new) ≤ limit_of self.now }
        // Each of the two histories begins it, and all entries of a seat's numbers stand in what that seat had seen.
        ensures this { Gains (known seat.old) (seen seat.new) }
        ensures that { Gains (known other) (seen seat.new) }
        ensures own { own_calls seat.new ≡ own_calls seat.old }
    {
        let top = &self.table.shared;
        let Seat {
            pass,
            number: _,
            left: _,
        } = other;
        join_pass(top, &mut seat.pass, pass);
        compare_seen(top, &mut seat.pass);
    }

    /// The machine with the journal of all calls, which are those that the closing seat has seen.
    /// That seat has every number, its own, those that it has yet to give and those that were joined to it.
    /// It waits for nobody and takes no memory.
    pub fn close(self, seat: Seat<M>) -> Booked<M>
        requires seat { IsOf self seat }
        requires all { (n : ℕ) → n < seats_of self → Has (known seat) n }
        ensures of { closed_id result ≡ lock_id self }
        ensures journal { journal_of result ≡ seen seat }
        ensures legal { IsLegalIn self (seen seat) × (length (seen seat) ≤ limit_of self) }
        ensures callers { All (λ e. e.caller < seats_of self) (seen seat) }
        ensures machine { M.state (machine_of result) ≡ state_after M.after (start_of self) (seen seat) }
    {
        let closing = Snapshot::of(&seat);
        let TurnLock { table, terms: _ } = self;
        let Seat {
            pass,
            number: _,
            left: _,
        } = seat;
        let mut closed = table.close_with(pass);
        let slot = closed.take(0);
        closed.free();
        Booked {
            book: slot.unwrap(),
            seat: closing,
        }
    }
}
