//! The machine with its journal.
ghost use Rattle.std.specs.Prelude.{◌≡◌, ◌+◌, ◌<◌, ◌-◌, ◌^◌, [], ◌∷◌, ◌++◌, length, IfOk, OnOk, OnErr};
ghost use Rattle.turn_lock.specs.History.{entry, state_after};

use crate::machine::{Entry, Machine};
use std::alloc::{AllocError, Global};
use std::snapshot::Snapshot;

/// Two copies of a command: one for the journal and one for the caller.
#[derive(Drop)]
pub struct Order<M: Machine> {
    kept: M::Cmd,
    told: M::Cmd,
    ghost same: { told ≡ kept },
}

impl<M: Machine> Order<M> {
    pub fn new(cmd: &M::Cmd) -> Result<Order<M>, AllocError>
        ensures { IfOk result (λ o. o.kept ≡ cmd.now) }
    {
        let kept = M::copy(cmd)?;
        let told = M::copy(cmd)?;
        Ok(Order { kept, told })
    }
}

/// A machine and the journal of its calls, with the machine that it began as.
#[derive(Drop)]
pub struct Book<M: Machine> {
    pub(crate) machine: M,
    pub(crate) journal: Vec<Entry<M>>,
    /// The machine at the start, for contracts alone.
    pub(crate) start: Snapshot<M>,
    /// The machine stands where the journal leaves it.
    pub ghost stands: { M.state machine ≡ state_after M.after (M.state start.value) journal.items },
}

impl<M: Machine> Book<M> {
    pub fn new(alloc: Global, machine: M) -> Book<M>
        ensures { (result.journal.items ≡ []) × (result.start.value ≡ machine) }
    {
        let start = Snapshot::of(&machine);
        Book {
            machine,
            journal: Vec::new(alloc),
            start,
        }
    }

    /// How many entries the journal has.
    pub fn len(&self) -> usize
        ensures { result ≡ length self.now.journal.items }
    {
        self.journal.len()
    }

    /// One call, which becomes the journal's last entry.
    #[tactic(auto, using(crate::proofs::Histories::state_after_snoc))]
    pub fn enter(&mut self, caller: u32, order: Order<M>) -> Result<Entry<M>, AllocError>
        requires { length self.old.journal.items < 2 ^ 32 - 1 }
        ensures entry { IfOk result (λ e. e ≡ entry (length self.old.journal.items + 1) caller order.kept (M.reply (state_after M.after (M.state self.old.start.value) self.old.journal.items) order.kept)) }
        ensures journal { IfOk result (λ e. self.new.journal.items ≡ self.old.journal.items ++ e ∷ []) }
        ensures start { self.new.start.value ≡ self.old.start.value }
        ensures refused { OnErr result (self.new.journal.items ≡ self.old.journal.items) }
    {
        self.journal.reserve(1)?;
        let (kept_reply, reply) = self.machine.step(&order.kept)?;
        let Order { kept, told } = order;
        let number = self.journal.len() as u32 + 1;
        self.journal.push_reserved(Entry {
            number,
            caller,
            cmd: kept,
            reply: kept_reply,
        });
        Ok(Entry {
            number,
            caller,
            cmd: told,
            reply,
        })
    }
}
