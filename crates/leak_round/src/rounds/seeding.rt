//! The seeds of a round, with paths of their own.

ghost use Rattle.std.specs.Prelude.{◌≡◌, ℕ, ◌-◌, ◌≤◌, IsTrue, IfOk};
ghost use Rattle.std.specs.FinMap as map;
ghost use Rattle.stability_laws.specs.Prelude.{has_prefix, seeds_of};
ghost use Rattle.leak_round.specs.Rounds.{kept, plan_of};
ghost use Rattle.leak_round.specs.SeedPaths.{HaveAtMost};
ghost use Rattle.leak_round.specs.declared.limits.TheConstants.{MAX_CELLS};

use super::Rounds;
use crate::round_seeds::seeds_with;
use crate::seeds_out::seeds_out;
use net_names::{NoMemory, Prefix};
use stability_laws::Seeds;
use std::alloc::Global;

impl Rounds {
    /// What ASes put in by themselves for a prefix of the plan in a round: the announced paths and, from
    /// round 2 on, what each leaker of the round, unless it announces the prefix, got from a peer or a
    /// provider in the round just before (RFC 7908, section 3). Rounds are numbered from 1. Each path has
    /// at most 40,000,000 numbers. The only refusal is want of memory.
    pub fn seeds(&self, alloc: Global, round: u32, prefix: Prefix) -> Result<Seeds, NoMemory>
        requires from { 1 ≤ round }
        requires known { IsTrue (has_prefix (plan_of self.now) prefix) }
        ensures seeds { IfOk result (λ s. (a : ℕ) →
            map.get s a ≡ seeds_of (plan_of self.now) round prefix (kept self.now (round - 1) prefix) a) }
        ensures short { IfOk result (HaveAtMost MAX_CELLS) }
    {
        let (plan, announced) = (&self.plan, self.announced.as_slice());
        let tables = self.tables.as_slice();
        let ids = seeds_with(alloc, plan, announced, tables, &[], round, prefix)?;
        let seeds = seeds_out(alloc, &self.pool, &ids)?;
        Ok(seeds)
    }
}
