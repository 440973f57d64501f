//! Files in memory, read by calls of which some are to fail.
ghost use Rattle.std.specs.Prelude.{◌≡◌, ◌≤◌, ◌-◌, ◌^◌, ◌↔◌, ◌⊎◌, ℕ, List, Some, [], ◌∷◌, length, take, drop, min, IfOk, OnOk, OnErr, IsErr, IsSome, IsNone};
ghost use Rattle.std.specs.Io.KnownBytes.{ReadConsumes};
ghost use Rattle.io_edge.specs.Files.{held, bytes_under};
ghost use Rattle.io_edge.specs.Calls.{IsPast, FailsNext, after_call, after_fault, with_failure};

use crate::calls::CallList;
use crate::files::NamedFiles;
use crate::{Failed, Inputs};
use std::alloc::{AllocError, Global};
use std::marker::Model;

/// Files in memory. A call fails where its number is in a list, and `begin` also for a name that isn't there.
///
/// `begin` and `take` are counted together from 1. Once the number of calls stands at its last value, no later call counts
/// as one of the list. A name is sound where it is there and no number of the list is above the number of calls made.
#[derive(Drop)]
pub struct MemInputs {
    files: NamedFiles,
    calls: CallList,
    most: usize,
}

impl Model for MemInputs {
    ghost use Rattle.std.specs.Prelude.{◌≤◌};
    ghost use Rattle.io_edge.specs.Mem.{MemFiles};

    ghost Value = { MemFiles };

    ghost view = { λ a. record { files = a.files.files; left = a.files.left; calls = a.calls; most = a.most } };

    ghost invariant = { λ a. 1 ≤ a.most };
}

impl MemInputs {
    /// No files, no call that is to fail, and no bound on one `take`.
    pub fn new(alloc: Global) -> MemInputs
        ensures { result ≡ record {
          files = [];
          left = [];
          calls = record { fails = []; made = 0; faults = 0 };
          most = 2 ^ 64 - 1;
        } }
    {
        MemInputs {
            files: NamedFiles::new(alloc),
            calls: CallList::new(alloc),
            most: usize::MAX,
        }
    }

    /// Puts in a file. A later call for the same name replaces the bytes, and what is left of a file that was begun stays.
    pub fn file(&mut self, name: &str, bytes: &[u8]) -> Result<(), AllocError>
        ensures ok { OnOk result
            (self.new ≡ record self.old { files = record { name = name.now; bytes = bytes.now } ∷ self.old.files }) }
        ensures err { OnErr result (self.new ≡ self.old) }
    {
        self.files.put(name, bytes)
    }

    /// The call of this number is to fail, besides those that were named before.
    pub fn fail_at(&mut self, call: u64) -> Result<(), AllocError>
        ensures ok { OnOk result (self.new ≡ record self.old { calls = with_failure self.old.calls call }) }
        ensures err { OnErr result (self.new ≡ self.old) }
    {
        self.calls.fail_at(call)
    }

    /// The greatest answer of one `take`.
    pub fn most(&mut self, bytes: usize)
        requires { 1 ≤ bytes }
        ensures { self.new ≡ record self.old { most = bytes } }
    {
        self.most = bytes;
    }
}

impl Inputs for MemInputs {
    ghost holds = { λ s name. held s.files name };

    ghost left = { λ s. Some s.left };

    ghost faults = { λ s. s.calls.faults };

    ghost is_sound = { λ s name. IsSome (held s.files name) × IsPast s.calls };

    ghost is_sound_begun = { λ s. IsPast s.calls };

    fn begin(&mut self, name: &str) -> Result<(), Failed>
        ensures fails { IsErr result ↔ (FailsNext self.old.calls ⊎ IsNone (held self.old.files name.now)) }
        ensures ok { OnOk result
            (self.new ≡ record self.old {
              left = bytes_under self.old.files name.now;
              calls = after_call self.old.calls;
            }) }
        ensures err { OnErr result (self.new ≡ record self.old { left = []; calls = after_fault self.old.calls }) }
    {
        if self.calls.next() {
            self.files.end();
            return Err(Failed);
        }
        if !self.files.begin(name) {
            self.calls.fault();
            return Err(Failed);
        }
        Ok(())
    }

    fn take(&mut self, room: &mut [u8]) -> Result<usize, Failed>
        ensures fails { IsErr result ↔ FailsNext self.old.calls }
        ensures count { IfOk result (λ n. n ≡ min self.old.most (min (length room.new) (length self.old.left))) }
        ensures bytes { IfOk result (λ n. take n room.new ≡ take n self.old.left) }
        ensures ok { IfOk result
            (λ n. self.new ≡ record self.old { left = drop n self.old.left; calls = after_call self.old.calls }) }
        ensures err { OnErr result (self.new ≡ record self.old { calls = after_fault self.old.calls }) }
        ensures goes_on { ReadConsumes (Some self.old.left) (Some self.new.left) result room.new }
    {
        if self.calls.next() {
            return Err(Failed);
        }
        Ok(self.files.take(room, self.most))
    }
}
