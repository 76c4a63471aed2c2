//! What a seat does with the turn.
ghost use Rattle.std.specs.Prelude.{◌≡◌, ◌≢◌, ℕ, ◌+◌, ◌<◌, [], ◌∷◌, ◌++◌, length, IfOk, IfErr, OnErr, Some};
ghost use Rattle.turn_lock.specs.declared.view.Stage.TheVariants.{Resting, Holding};
ghost use Rattle.turn_lock.specs.History.{calls_of};
ghost use Rattle.turn_lock.specs.Plays.{IsSeated, IsSameSeat, Carries, Saw, Turns, seeing, Refuses};

use crate::book::{Book, Order};
use crate::fault::CallFault;
use crate::machine::{Entry, Machine};
use crate::rule::{Pass, Top};
use crate::steps::{count_entry, free_turn, slot_in, slot_out, take_turn};
use std::sync::Wait;
use std::thread::yield_now;

/// Tries for the turn until the seat has it.
pub(crate) fn wait_for_turn<M: Machine, R: Wait>(
    rt: &R,
    top: &Top<M>,
    pass: &mut Pass<M>,
    number: u32,
)
    requires seat { IsSeated top.now.table_id top.now.key pass.old }
    requires rests { (pass.old.me.0.stage ≡ Resting) × (number ≡ pass.old.me.0.known.number) }
    ensures { IsSameSeat pass.old pass.new × ((n : ℕ) × (pass.old.me.0.tries < n) × Turns pass.old.me n pass.new.me) }
{
    for _ in rt.forever() {
        if take_turn(top, pass, number) == 0 {
            return;
        }
        yield_now();
    }
    unreachable!()
}

/// Makes the call of a seat that has the turn, and frees the turn.
pub(crate) fn answer<M: Machine>(
    top: &Top<M>,
    pass: &mut Pass<M>,
    caller: u32,
    limit: u32,
    order: Order<M>,
) -> Result<Entry<M>, CallFault>
    requires seat { IsSeated top.now.table_id top.now.key pass.old × (pass.old.me.0.stage ≡ Holding) }
    requires slot { (b : _) × Carries pass.old (Some b) × (b.journal.items ≡ pass.old.me.0.known.seen) × (b.start.value ≡ top.now.key.start.value) }
    requires saw { Saw M.Machine top.now.key pass.old.me.0.known }
    requires told { (caller ≡ pass.old.me.0.known.number) × (limit ≡ top.now.key.limit) }
    ensures seat { IsSameSeat pass.old pass.new × (pass.new.me ≡ (seeing pass.old.me.0 pass.new.me.0.known.seen Resting, [])) }
    ensures answer { IfOk result (λ e. (pass.new.me.0.known.seen ≡ pass.old.me.0.known.seen ++ e ∷ []) × (e.number ≡ length pass.old.me.0.known.seen + 1) × (e.caller ≡ caller) × (e.cmd ≡ order.kept)) }
    ensures refused { OnErr result (pass.new.me.0.known.seen ≡ pass.old.me.0.known.seen) }
    ensures saw { Saw M.Machine top.now.key pass.new.me.0.known }
    // No other caller's entry is made.
    ensures others { (n : ℕ) → n ≢ caller → calls_of n pass.new.me.0.known.seen ≡ calls_of n pass.old.me.0.known.seen }
    ensures cause { IfErr result (Refuses limit (length pass.old.me.0.known.seen)) }
{
    let mut book = slot_out(top, pass);
    if book.len() >= limit as usize {
        slot_in(top, pass, book);
        free_turn(top, pass);
        return Err(CallFault::JournalFull(limit));
    }
    match book.enter(caller, order) {
        Ok(entry) => {
            slot_in(top, pass, book);
            count_entry(top, pass);
            free_turn(top, pass);
            Ok(entry)
        }
        Err(_) => {
            slot_in(top, pass, book);
            free_turn(top, pass);
            Err(CallFault::NoMemory)
        }
    }
}
