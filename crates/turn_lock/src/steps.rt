//! The eight kinds of atomic step: take the turn, slot out, slot in, count, turn free, load the count, split and join.
//! Slot out and slot in are what a seat does with the slot that it takes with the turn and gives back with it.
ghost use Rattle.std.specs.Prelude.{◌≡◌, ℕ, ◌+◌, ◌<◌, ◌≤◌, [], ◌∷◌, ◌++◌, length, None, Some};
ghost use Rattle.turn_lock.specs.declared.view.Stage.TheVariants.{Resting, Holding, Met};
ghost use Rattle.turn_lock.specs.History.{entry, state_after};
ghost use Rattle.turn_lock.specs.Rule.{HasTurn, giving_view, given_view, joined_view};
ghost use Rattle.turn_lock.specs.Plays.{IsSeated, IsSameSeat, Carries, took, counted, freed, loaded, compared};

use crate::book::Book;
use crate::machine::Machine;
use crate::rule::{Compare, Count, Cut, Free, Glue, Load, Pass, Take, Top};

const COUNT: usize = 0;

const TURN: usize = 1;

const SLOT: usize = 0;

const FREE: u64 = 0;

/// Tries once for the turn, and returns the turn word as it was: 0 where the seat now has the turn.
pub(crate) fn take_turn<M: Machine>(top: &Top<M>, pass: &mut Pass<M>, number: u32) -> u64
    requires seat { IsSeated top.now.table_id top.now.key pass.old }
    requires rests { (pass.old.me.0.stage ≡ Resting) × (number ≡ pass.old.me.0.known.number) }
    ensures { IsSameSeat pass.old pass.new × took pass.old.me result pass.new.me }
{
    top.compare_exchange::<Take>(pass, TURN, FREE, u64::from(number) + 1)
}

/// Takes the machine out of the slot.
pub(crate) fn slot_out<M: Machine>(top: &Top<M>, pass: &mut Pass<M>) -> Book<M>
    requires { (pass.old.table_id ≡ top.now.table_id) × ((b : _) × Carries pass.old (Some b)) }
    ensures same { IsSameSeat pass.old pass.new × (pass.new.me.0 ≡ pass.old.me.0) }
    ensures slot { Carries pass.old (Some result) × Carries pass.new None }
{
    top.exchange(pass, SLOT, None).unwrap()
}

/// Puts the machine back into the slot.
pub(crate) fn slot_in<M: Machine>(top: &Top<M>, pass: &mut Pass<M>, book: Book<M>)
    requires { (pass.old.table_id ≡ top.now.table_id) × Carries pass.old None }
    ensures same { IsSameSeat pass.old pass.new × (pass.new.me.0 ≡ pass.old.me.0) }
    ensures slot { Carries pass.new (Some book) }
{
    top.exchange(pass, SLOT, Some(book));
}

/// Counts the entry with which the journal in the slot ends: from now on it is in the history.
pub(crate) fn count_entry<M: Machine>(top: &Top<M>, pass: &mut Pass<M>)
    requires seat { IsSeated top.now.table_id top.now.key pass.old }
    requires turn { pass.old.me.0.stage ≡ Holding }
    requires room { length pass.old.me.0.known.seen < top.now.key.limit }
    requires entry { (b : _) × (c : _) × Carries pass.old (Some b) × (b.journal.items ≡ pass.old.me.0.known.seen ++ entry (length pass.old.me.0.known.seen + 1) pass.old.me.0.known.number c (M.reply (state_after M.after (M.state top.now.key.start.value) pass.old.me.0.known.seen) c) ∷ []) }
    ensures { IsSameSeat pass.old pass.new × counted pass.old.me 0 pass.new.me }
{
    top.fetch_add::<Count>(pass, COUNT, 1);
}

/// Frees the turn, with the machine in the slot.
pub(crate) fn free_turn<M: Machine>(top: &Top<M>, pass: &mut Pass<M>)
    requires seat { IsSeated top.now.table_id top.now.key pass.old }
    requires turn { HasTurn pass.old.me.0.stage }
    requires slot { (b : _) × Carries pass.old (Some b) × (b.journal.items ≡ pass.old.me.0.known.seen) × (b.start.value ≡ top.now.key.start.value) }
    ensures { IsSameSeat pass.old pass.new × freed pass.old.me 0 pass.new.me }
{
    top.swap::<Free>(pass, TURN, FREE);
}

/// Reads how many entries there are.
pub(crate) fn load_count<M: Machine>(top: &Top<M>, pass: &mut Pass<M>) -> u64
    requires seat { IsSeated top.now.table_id top.now.key pass.old }
    requires rests { pass.old.me.0.stage ≡ Resting }
    ensures { IsSameSeat pass.old pass.new × loaded pass.old.me result pass.new.me }
{
    top.load::<Load>(pass, COUNT)
}

/// A new seat, which has the last number that the old one has yet to give and has seen as much.
pub(crate) fn split_pass<M: Machine>(top: &Top<M>, pass: &mut Pass<M>) -> Pass<M>
    requires seat { IsSeated top.now.table_id top.now.key pass.old }
    requires rests { pass.old.me.0.stage ≡ Resting }
    requires more { 0 < pass.old.me.0.known.left }
    ensures old { IsSameSeat pass.old pass.new × (pass.new.me ≡ (giving_view pass.old.me.0, pass.old.me.1)) }
    ensures new { (result.table_id ≡ pass.old.table_id) × (result.me ≡ (given_view pass.old.me.0, [])) }
{
    top.split_seat::<Cut>(pass)
}

/// One seat of two. The step after it compares what the two have seen.
pub(crate) fn join_pass<M: Machine>(top: &Top<M>, pass: &mut Pass<M>, other: Pass<M>)
    requires seat { IsSeated top.now.table_id top.now.key pass.old × (pass.old.me.0.stage ≡ Resting) }
    requires other { IsSeated top.now.table_id top.now.key other × (other.me.0.stage ≡ Resting) × (other.me.1 ≡ []) }
    ensures { IsSameSeat pass.old pass.new × (pass.new.me ≡ (joined_view pass.old.me.0 other.me.0, pass.old.me.1)) }
{
    top.join_seat::<Glue>(pass, other);
}

/// Reads the count once more, which shows that what two joined seats have seen begins one history.
pub(crate) fn compare_seen<M: Machine>(top: &Top<M>, pass: &mut Pass<M>)
    requires seat { IsSeated top.now.table_id top.now.key pass.old }
    requires met { (a : _) × (b : _) × (pass.old.me.0.stage ≡ Met a b) }
    ensures { IsSameSeat pass.old pass.new × compared pass.old.me 0 pass.new.me }
{
    top.load::<Compare>(pass, COUNT);
}
