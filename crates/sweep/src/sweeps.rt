//! The lines of sweeps.
ghost use Rattle.std.specs.Prelude.{◌≡◌, [], ◌∷◌, ◌++◌, OnOk, OnErr, length, option_copied, slice_get};

use net_names::{Addr, NoMemory};
use policy_kinds::Kind;
use std::alloc::Global;
use std::marker::Model;

/// How many numbers of adopters a line has at most.
pub const MOST_NUMBERS: usize = 32;

/// How many trials a line has at most.
pub const MOST_TRIALS: u64 = 1_000;

/// How many lines a file has at most that aren't skipped.
pub const MOST_SWEEPS: usize = 1_000;

/// The numbers of adopters of a line, in its order. Contracts see the list of them.
#[derive(Drop)]
pub struct Ks {
    numbers: Vec<u32>,
}

impl Model for Ks {
    ghost use Rattle.std.specs.Prelude.{ℕ, List};

    ghost Value = { List ℕ };

    ghost view = { λ ks. ks.numbers.items };
}

impl Ks {
    /// No numbers.
    pub(crate) fn new(alloc: Global) -> Ks
        ensures { result ≡ [] }
    {
        Ks {
            numbers: Vec::new(alloc),
        }
    }

    /// Puts a number at the end. `Err` where there is not enough memory; then the list stays as it was.
    pub(crate) fn push(&mut self, number: u32) -> Result<(), NoMemory>
        ensures ok { OnOk result (self.new ≡ self.old ++ number ∷ []) }
        ensures err { OnErr result (self.new ≡ self.old) }
    {
        self.numbers.push(number)?;
        Ok(())
    }

    /// The numbers in their order.
    pub fn as_slice(&self) -> &[u32]
        ensures { result.now ≡ self.now }
    {
        self.numbers.as_slice()
    }
}

/// A line that asks for trials: in each of them as many ASes as a number says adopt the kind, and the fates of packets
/// for the address are counted in the round.
#[derive(Drop)]
pub struct Sweep {
    /// The number of the line in its file, where the first line has number 1 and skipped lines count.
    pub line: u32,
    /// The kind that is adopted.
    pub kind: Kind,
    /// The round.
    pub round: u32,
    /// The address.
    pub addr: Addr,
    /// What the draws begin with.
    pub seed: u32,
    /// How many trials there are for each number of adopters.
    pub trials: u32,
    /// The numbers of adopters.
    pub ks: Ks,
}

/// The sweeps of a file, in the order of its lines. Contracts see the list of them.
#[derive(Drop)]
pub struct Sweeps {
    items: Vec<Sweep>,
}

impl Model for Sweeps {
    ghost use Rattle.std.specs.Prelude.{List};
    ghost use Rattle.sweep.specs.declared.sweeps.Sweep.{Sweep};

    ghost Value = { List Sweep };

    ghost view = { λ s. s.items.items };
}

impl Sweeps {
    /// No sweeps.
    pub(crate) fn new(alloc: Global) -> Sweeps
        ensures { result ≡ [] }
    {
        Sweeps {
            items: Vec::new(alloc),
        }
    }

    /// How many there are.
    pub fn len(&self) -> usize
        ensures { result ≡ length self.now }
    {
        self.items.len()
    }

    /// Puts a sweep at the end. `Err` where there is not enough memory; then the list stays as it was.
    pub(crate) fn push(&mut self, sweep: Sweep) -> Result<(), NoMemory>
        ensures ok { OnOk result (self.new ≡ self.old ++ sweep ∷ []) }
        ensures err { OnErr result (self.new ≡ self.old) }
    {
        self.items.push(sweep)?;
        Ok(())
    }

    /// The sweep at a place, counted from 0; `None` exactly where the place is not below their number.
    pub fn at(&self, place: usize) -> Option<&Sweep>
        ensures { option_copied result ≡ slice_get self.now place }
    {
        self.items.get(place)
    }
}
