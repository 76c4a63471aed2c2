//! What is shared, and what one call of it leaves behind.
ghost use Rattle.std.specs.Prelude.{◌≡◌, IfOk, OnOk, OnErr};

use std::alloc::AllocError;

/// A machine that answers commands one at a time.
pub trait Machine: Drop {
    type Cmd: Drop;

    type Reply: Drop;

    /// What a machine is in, as contracts see it. No value of it is made.
    type State;

    ghost state: { Self → Self.State };

    ghost reply: { Self.State → Self.Cmd → Self.Reply };

    ghost after: { Self.State → Self.Cmd → Self.State };

    fn copy(cmd: &Self::Cmd) -> Result<Self::Cmd, AllocError>
        ensures { IfOk result (λ c. c ≡ cmd.now) };

    /// Answers a command by two equal replies. Without memory the machine stays in its state.
    fn step(&mut self, cmd: &Self::Cmd) -> Result<(Self::Reply, Self::Reply), AllocError>
        ensures replies { IfOk result (λ r. (r.0 ≡ reply (state self.old) cmd.now) × (r.1 ≡ r.0)) }
        ensures done { OnOk result (state self.new ≡ after (state self.old) cmd.now) }
        ensures refused { OnErr result (state self.new ≡ state self.old) };
}

/// One call that was answered: its number in the history, counted from 1, and the number of the seat that made it.
#[derive(Drop)]
pub struct Entry<M: Machine> {
    pub number: u32,
    pub caller: u32,
    pub cmd: M::Cmd,
    pub reply: M::Reply,
}
