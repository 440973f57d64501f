//! A printed table.
ghost use Rattle.std.specs.Prelude.{◌≡◌, ◌<◌, ◌-◌, ◌^◌, [], ◌∷◌, ◌++◌, length, slice_get, OnOk, OnErr, if◌then◌else◌};
ghost use Rattle.stability_laws.specs.Prelude.{has_prefix};

use crate::rows::Rows;
use net_names::{NoMemory, Prefix};
use stability_laws::SeedPlan;
use std::alloc::Global;
use std::marker::Model;

/// The numbers of the lines in which the sections begin, one for each round from the first on. Contracts
/// see the list of them.
#[derive(Drop)]
pub struct Starts {
    lines: Vec<u32>,
}

impl Model for Starts {
    ghost use Rattle.std.specs.Prelude.{ℕ, List, ◌<◌, ◌^◌, length};

    ghost Value = { List ℕ };

    ghost view = { λ s. s.lines.items };

    ghost invariant = { λ s. length s.lines.items < 2 ^ 32 };
}

impl Starts {
    /// None.
    pub(crate) fn new(alloc: Global) -> Starts
        ensures { result ≡ [] }
    {
        Starts {
            lines: Vec::new(alloc),
        }
    }

    /// Puts a line at the end. `Err` where there is not enough memory; then the list stays as it was.
    pub(crate) fn push(&mut self, line: u32) -> Result<(), NoMemory>
        requires { length self.old < 2 ^ 32 - 1 }
        ensures ok { OnOk result (self.new ≡ self.old ++ line ∷ []) }
        ensures err { OnErr result (self.new ≡ self.old) }
    {
        self.lines.push(line)?;
        Ok(())
    }

    /// How many sections there are.
    pub fn len(&self) -> u32
        ensures { result ≡ length self.now }
    {
        self.lines.len() as u32
    }

    /// The line at a place, counted from 0; `None` exactly where there are not so many.
    pub fn at(&self, place: u32) -> Option<u32>
        ensures { result ≡ slice_get self.now place }
    {
        self.lines.get(place as usize).copied()
    }
}

/// A printed table: what ASes hold of one prefix in rounds, one section for each from the first on.
#[derive(Drop)]
pub struct Tables {
    /// The prefix.
    pub prefix: Prefix,
    /// The lines in which the sections begin.
    pub starts: Starts,
    /// The rows of the sections.
    pub rows: Rows,
}

impl Tables {
    /// The line of the first section that is not in a world with this plan and so many rounds: the first
    /// of all where the plan has not the prefix, else the one after so many; `None` exactly where there is
    /// no such section.
    pub fn first_outside(&self, plan: &SeedPlan, rounds: u32) -> Option<u32>
        ensures { result ≡ slice_get self.now.starts (if has_prefix plan.now self.now.prefix then rounds else 0) }
    {
        if plan.has_prefix(self.prefix) {
            self.starts.at(rounds)
        } else {
            self.starts.at(0)
        }
    }
}
