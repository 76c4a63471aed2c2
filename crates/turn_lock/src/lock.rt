//! A machine that callers share, one turn at a time.
ghost use Rattle.std.specs.Prelude.{◌≡◌};

use crate::book::Book;
use crate::machine::Machine;
use crate::rule::OneTurn;
use crate::view::{Terms, View};
use atomic_table::Table;
use std::alloc::Global;

mod calls;
mod ends;
mod turn;

/// A machine with a journal of all its calls. Each caller has a seat, and the seat that has the turn uses the machine.
/// In contracts a history is a list of entries from the lock's start, and `IsOf` says that a seat is one of the lock's.
#[derive(Drop)]
pub struct TurnLock<M: Machine> {
    pub(crate) table: Table<Option<Book<M>>, View<M>, Terms<M>, OneTurn, Global>,
    pub(crate) terms: Terms<M>,
    ghost keyed: { table.shared.key ≡ terms },
    ghost sized: { (table.shared.table_id.words ≡ 2) × (table.shared.table_id.slots ≡ 1) },
}
