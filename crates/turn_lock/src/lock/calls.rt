//! Calls of the machine.
ghost use Rattle.std.specs.Prelude.{◌≡◌, ℕ, ◌+◌, ◌-◌, ◌<◌, ◌≤◌, [], ◌∷◌, ◌++◌, length, IfOk, IfErr, OnOk, OnErr};
ghost use Rattle.turn_lock.specs.Numbers.{SameNumbers, HasNoneOf, IsApart, Gains};

use super::TurnLock;
use super::turn::{answer, wait_for_turn};
use crate::book::Order;
use crate::fault::{CallFault, TryFault};
use crate::machine::{Entry, Machine};
use crate::seat::Seat;
use crate::steps::take_turn;
use std::sync::Wait;

impl<M: Machine> TurnLock<M> {
    ghost use Rattle.turn_lock.specs.Seats.{IsOf, IsLegalIn, limit_of, known, seen, tries, last_read, own_calls, CallCause, TryCause};

    /// Makes a call, and waits for the turn as long as other seats have it.
    /// The entry's number is its place in the history, counted from 1.
    pub fn call<R: Wait>(
        &self,
        rt: &R,
        seat: &mut Seat<M>,
        cmd: &M::Cmd,
    ) -> Result<Entry<M>, CallFault>
        requires { IsOf self.now seat.old }
        ensures seat { IsOf self.now seat.new × SameNumbers (known seat.old) (known seat.new) }
        // The history is legal from the lock's start. No history is longer than the limit.
        ensures legal { OnOk result (IsLegalIn self.now (seen seat.new)) }
        ensures room { length (seen seat.new) ≤ limit_of self.now }
        // It begins with what the seat had seen and ends with the entry, and none of the entries between is of the seat's numbers.
        ensures grown { IfOk result (λ e. (between : _) × (seen seat.new ≡ (seen seat.old ++ between) ++ e ∷ []) × HasNoneOf (known seat.old) between) }
        ensures entry { IfOk result (λ e. (e.number ≡ length (seen seat.new)) × (e.caller ≡ (known seat.old).number) × (e.cmd ≡ cmd.now)) }
        // Its number is the seat's own, and none of its others.
        ensures apart { IfOk result (λ e. IsApart (known seat.old) e.caller) }
        ensures own { IfOk result (λ e. own_calls seat.new ≡ own_calls seat.old ++ e ∷ []) }
        ensures tried { OnOk result ((tries seat.old < tries seat.new) × (last_read seat.new ≡ 0)) }
        ensures tries { tries seat.old ≤ tries seat.new }
        // A refused call leaves what the seat's own calls are, and gains no entry of the seat's numbers.
        ensures refused { OnErr result (Gains (known seat.old) (seen seat.new) × (own_calls seat.new ≡ own_calls seat.old)) }
        ensures cause { IfErr result (CallCause self.now seat.old seat.new) }
    {
        let order = Order::new(cmd)?;
        let top = &self.table.shared;
        wait_for_turn(rt, top, &mut seat.pass, seat.number);
        answer(top, &mut seat.pass, seat.number, self.terms.limit, order)
    }

    /// Makes a call if no seat has the turn, and waits for nobody.
    pub fn try_call(&self, seat: &mut Seat<M>, cmd: &M::Cmd) -> Result<Entry<M>, TryFault>
        requires { IsOf self.now seat.old }
        ensures seat { IsOf self.now seat.new × SameNumbers (known seat.old) (known seat.new) }
        // The history is legal from the lock's start. No history is longer than the limit.
        ensures legal { OnOk result (IsLegalIn self.now (seen seat.new)) }
        ensures room { length (seen seat.new) ≤ limit_of self.now }
        // It begins with what the seat had seen and ends with the entry, and none of the entries between is of the seat's numbers.
        ensures grown { IfOk result (λ e. (between : _) × (seen seat.new ≡ (seen seat.old ++ between) ++ e ∷ []) × HasNoneOf (known seat.old) between) }
        ensures entry { IfOk result (λ e. (e.number ≡ length (seen seat.new)) × (e.caller ≡ (known seat.old).number) × (e.cmd ≡ cmd.now)) }
        // Its number is the seat's own, and none of its others.
        ensures apart { IfOk result (λ e. IsApart (known seat.old) e.caller) }
        ensures own { IfOk result (λ e. own_calls seat.new ≡ own_calls seat.old ++ e ∷ []) }
        // The turn word was read once, as 0.
        ensures tried { OnOk result ((tries seat.new ≡ tries seat.old + 1) × (last_read seat.new ≡ 0)) }
        ensures tries { (tries seat.old ≤ tries seat.new) × (tries seat.new ≤ tries seat.old + 1) }
        // A refused call leaves what the seat's own calls are, and gains no entry of the seat's numbers.
        ensures refused { OnErr result (Gains (known seat.old) (seen seat.new) × (own_calls seat.new ≡ own_calls seat.old)) }
        ensures cause { IfErr result (TryCause self.now seat.old seat.new) }
    {
        let order = Order::new(cmd)?;
        let top = &self.table.shared;
        let found = take_turn(top, &mut seat.pass, seat.number);
        if found != 0 {
            return Err(TryFault::Held(found as u32));
        }
        match answer(top, &mut seat.pass, seat.number, self.terms.limit, order) {
            Ok(entry) => Ok(entry),
            Err(CallFault::JournalFull(limit)) => Err(TryFault::JournalFull(limit)),
            Err(CallFault::NoMemory) => Err(TryFault::NoMemory),
        }
    }
}
