//! What a caller calls with.
ghost use Rattle.std.specs.Prelude.{◌≡◌, ℕ, ◌<◌, ◌≤◌, [], length, Some};
ghost use Rattle.turn_lock.specs.History.{calls_of};
ghost use Rattle.turn_lock.specs.Numbers.{IsApart};
ghost use Rattle.turn_lock.specs.declared.view.Stage.TheVariants.{Resting};

use crate::machine::Machine;
use crate::rule::Pass;

/// A caller's place at a lock. One thread at a time calls with it, and it may go to another thread.
/// It has a number of its own, may have numbers to give to new seats, and keeps those of the seats that were joined to it.
#[derive(Drop)]
pub struct Seat<M: Machine> {
    pub(crate) pass: Pass<M>,
    pub(crate) number: u32,
    pub(crate) left: u32,
    ghost numbers: { (number ≡ pass.me.0.known.number) × (left ≡ pass.me.0.known.left) },
    ghost rests: { (pass.me.0.stage ≡ Resting) × (pass.me.1 ≡ []) },
    /// Its own number is none of those that it has yet to give, and none of those that were joined to it.
    ghost apart: { IsApart pass.me.0.known pass.me.0.known.number },
    /// It has seen no more entries than the lock's limit.
    ghost within: { (t : _) → pass.me.0.terms ≡ Some t → length pass.me.0.known.seen ≤ t.limit },
    /// No entry has a number that the seat has yet to give.
    ghost ungiven: { (n : ℕ) → 0 < n → n ≤ pass.me.0.known.left → length (calls_of n pass.me.0.known.seen) ≡ 0 },
}

impl<M: Machine> Seat<M> {
    ghost use Rattle.turn_lock.specs.Seats.{known};

    /// Its own number, which its entries have.
    pub fn number(&self) -> u32
        ensures { result ≡ (known self.now).number }
    {
        self.number
    }

    /// How many seats it may still be split into: it has yet to give the numbers from 1 to this one.
    pub fn left(&self) -> u32
        ensures { result ≡ (known self.now).left }
    {
        self.left
    }
}
