//! The calls of an object in memory, some of which are to fail.
ghost use Rattle.std.specs.Prelude.{◌≡◌, ◌+◌, ◌↔◌, [], OnOk, OnErr, IsTrue, if◌then◌else◌};
ghost use Rattle.io_edge.specs.Calls.{FailsNext, after_call, after_fault, one_more, with_failure};

use std::alloc::{AllocError, Global};
use std::marker::Model;

/// The numbers of the calls that are to fail, how many calls were made, and how many faults were counted.
#[derive(Drop)]
pub(crate) struct CallList {
    fails: Vec<u64>,
    made: u64,
    faults: u64,
}

impl Model for CallList {
    ghost use Rattle.io_edge.specs.Calls.{Calls};

    ghost Value = { Calls };

    ghost view = { λ a. record { fails = a.fails.items; made = a.made; faults = a.faults } };
}

impl CallList {
    pub(crate) fn new(alloc: Global) -> CallList
        ensures { result ≡ record { fails = []; made = 0; faults = 0 } }
    {
        CallList {
            fails: Vec::new(alloc),
            made: 0,
            faults: 0,
        }
    }

    /// The call of this number is to fail.
    pub(crate) fn fail_at(&mut self, call: u64) -> Result<(), AllocError>
        ensures ok { OnOk result (self.new ≡ with_failure self.old call) }
        ensures err { OnErr result (self.new ≡ self.old) }
    {
        self.fails.push(call)?;
        Ok(())
    }

    /// Counts a call, and says whether it is to fail; then it is a fault.
    pub(crate) fn next(&mut self) -> bool
        ensures fails { IsTrue result ↔ FailsNext self.old }
        ensures after { self.new ≡ (if result then after_fault self.old else after_call self.old) }
    {
        if self.made == u64::MAX {
            return false;
        }
        self.made += 1;
        let fails = self.fails.contains(&self.made);
        if fails {
            self.faults = self.faults.saturating_add(1);
        }
        fails
    }

    /// Counts a fault.
    pub(crate) fn fault(&mut self)
        ensures { self.new ≡ record self.old { faults = one_more self.old.faults } }
    {
        self.faults = self.faults.saturating_add(1);
    }
}
