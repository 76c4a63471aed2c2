//! A sink in memory.
ghost use Rattle.std.specs.Prelude.{◌≡◌, ℕ, ◌+◌, ◌-◌, ◌≤◌, ◌↔◌, [], ◌++◌, length, take, vec_len, vec_capacity, Contains, Some, IsOk, IfOk, OnOk, OnErr, is_ok, if◌then◌else◌};
ghost use Rattle.quill_io.specs.Faults.{next_count};
ghost use Rattle.quill_io.specs.Sink.{Puts};

use crate::calls::{is_listed, one_more};
use crate::sink::{Sink, SinkFault};
use std::alloc::{AllocError, Global};
use std::marker::Model;

/// Bytes that lie in memory, with a fixed room for them, of which chosen calls of `put` fail.
///
/// The calls are numbered from 1. A call that is to fail takes nothing of its piece.
#[derive(Debug, Drop)]
pub struct MemSink {
    held: Vec<u8>,
    room: usize,
    failing: Vec<u32>,
    calls: u64,
    faults: u64,
}

impl Model for MemSink {
    ghost use Rattle.std.specs.Prelude.{◌≤◌, vec_len, vec_capacity};
    ghost use Rattle.quill_io.specs.MemSink.{SinkState};

    ghost Value = { SinkState };

    ghost view = { λ sink. record {
      held = sink.held.items;
      room = sink.room;
      failing = sink.failing.items;
      calls = sink.calls;
      faults = sink.faults;
    } };

    ghost invariant = { λ sink. (vec_len sink.held ≤ sink.room) × (sink.room ≤ vec_capacity sink.held) };
}

impl MemSink {
    /// A sink with room for `room` bytes, whose calls of the numbers in `failing` fail, counted from 1.
    pub fn new(alloc: Global, room: usize, failing: Vec<u32>) -> Result<Self, AllocError>
        ensures { IfOk result (λ sink. sink ≡ record {
          held = [];
          room = room;
          failing = failing.items;
          calls = 0;
          faults = 0;
        }) }
    {
        Ok(MemSink {
            held: Vec::with_capacity(alloc, room)?,
            room,
            failing,
            calls: 0,
            faults: 0,
        })
    }

    /// The bytes that were put.
    pub fn held(&self) -> &[u8]
        ensures held { result.now ≡ self.now.held }
        ensures within { length result.now ≤ self.now.room }
    {
        &self.held
    }

    /// How many calls of `put` have failed.
    pub fn faults(&self) -> u64
        ensures { result ≡ self.now.faults }
    {
        self.faults
    }
}

impl Sink for MemSink {
    ghost held = { λ sink. Some sink.held };

    ghost faults = { λ sink. sink.faults };

    fn put(&mut self, bytes: &[u8]) -> Result<(), SinkFault>
        // The old bytes stay, and the piece or a prefix of it follows them.
        ensures told { Puts (Some self.old.held) (Some self.new.held) bytes.now result }
        ensures keeps_room { self.new.room ≡ self.old.room }
        ensures keeps_list { self.new.failing ≡ self.old.failing }

        // It fails exactly at the calls that are listed, and where the piece passes the room.
        ensures calls { self.new.calls ≡ next_count self.old.calls }
        ensures succeeds { IsOk result ↔ (¬ Contains self.old.failing self.new.calls
            × (length self.old.held + length bytes.now ≤ self.old.room)) }
        ensures counted { self.new.faults ≡
            (if is_ok result then self.old.faults else next_count self.old.faults) }

        // It takes the whole piece, or nothing at a listed call, or else what there is room for.
        ensures whole { OnOk result (self.new.held ≡ self.old.held ++ bytes.now) }
        ensures none { Contains self.old.failing self.new.calls → self.new.held ≡ self.old.held }
        ensures cut { OnErr result (¬ Contains self.old.failing self.new.calls
            → self.new.held ≡ self.old.held ++ take (self.old.room - length self.old.held) bytes.now) }
    {
        self.calls = one_more(self.calls);
        if is_listed(&self.failing, self.calls) {
            self.faults = one_more(self.faults);
            return Err(SinkFault::Failed);
        }
        let left = self.room - self.held.len();
        if bytes.len() > left {
            self.held.extend_from_slice(&bytes[..left]).unwrap();
            self.faults = one_more(self.faults);
            return Err(SinkFault::Failed);
        }
        self.held.extend_from_slice(bytes).unwrap();
        Ok(())
    }
}
