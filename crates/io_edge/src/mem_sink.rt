//! A sink in memory, written by calls of which some are to fail.
ghost use Rattle.std.specs.Prelude.{◌≡◌, ◌≤◌, ◌<◌, ◌-◌, ◌^◌, ◌↔◌, [], length, take, min, true, vec_capacity, IfOk, OnOk, OnErr, IsErr};
ghost use Rattle.io_edge.specs.Calls.{FailsNext, after_call, after_fault, with_failure};
ghost use Rattle.io_edge.specs.Room.{told, with_bytes};

use crate::calls::CallList;
use crate::{CleanSink, Failed, Sink};
use std::alloc::{AllocError, Global};
use std::marker::Model;

/// A sink over a buffer, as [`CleanSink`]. A `put` fails where its number is in a list, counted from 1.
///
/// Once the number of calls stands at its last value, no later call counts as one of the list.
#[derive(Drop)]
pub struct MemSink {
    kept: CleanSink,
    calls: CallList,
    most: usize,
}

impl Model for MemSink {
    ghost use Rattle.std.specs.Prelude.{◌≤◌};
    ghost use Rattle.io_edge.specs.Mem.{MemBytes};

    ghost Value = { MemBytes };

    ghost view = { λ a. record { kept = a.kept; calls = a.calls; most = a.most } };

    ghost invariant = { λ a. 1 ≤ a.most };
}

impl MemSink {
    /// A sink over an empty buffer, with no call that is to fail and no bound on one `put`.
    pub fn new(alloc: Global, room: Vec<u8>) -> MemSink
        requires { room.items ≡ [] }
        ensures { result ≡ record {
          kept = record { room = vec_capacity room; kept = []; whole = true };
          calls = record { fails = []; made = 0; faults = 0 };
          most = 2 ^ 64 - 1;
        } }
    {
        MemSink {
            kept: CleanSink::new(room),
            calls: CallList::new(alloc),
            most: usize::MAX,
        }
    }

    /// The call of this number is to fail, besides those that were named before.
    pub fn fail_at(&mut self, call: u64) -> Result<(), AllocError>
        ensures ok { OnOk result (self.new ≡ record self.old { calls = with_failure self.old.calls call }) }
        ensures err { OnErr result (self.new ≡ self.old) }
    {
        self.calls.fail_at(call)
    }

    /// The greatest answer of one `put`.
    pub fn most(&mut self, bytes: usize)
        requires { 1 ≤ bytes }
        ensures { self.new ≡ record self.old { most = bytes } }
    {
        self.most = bytes;
    }

    /// The bytes that it keeps.
    pub fn bytes(&self) -> &[u8]
        ensures { result.now ≡ self.now.kept.kept }
    {
        self.kept.bytes()
    }
}

impl Sink for MemSink {
    ghost written = { λ s. told s.kept };

    ghost faults = { λ s. s.calls.faults };

    fn put(&mut self, piece: &[u8]) -> Result<usize, Failed>
        ensures fails { IsErr result ↔ FailsNext self.old.calls }
        ensures count { IfOk result (λ n. n ≡ min self.old.most (length piece.now)) }
        ensures goes_on { 0 < length piece.now → IfOk result (λ n. 0 < n) }
        ensures ok { IfOk result
            (λ n. self.new ≡ record self.old {
              kept = with_bytes self.old.kept (take n piece.now);
              calls = after_call self.old.calls;
            }) }
        ensures err { OnErr result (self.new ≡ record self.old { calls = after_fault self.old.calls }) }
    {
        if self.calls.next() {
            return Err(Failed);
        }
        let count = piece.len().min(self.most);
        self.kept.put(&piece[..count])
    }
}
