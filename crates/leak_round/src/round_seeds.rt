//! The seeds of a prefix in a round.

ghost use Rattle.std.specs.Prelude.{◌-◌, ◌≤◌, IfOk};
ghost use Rattle.leak_round.specs.Leaked.{AreSeedsWith};

use crate::announced::{Announced, announced_seeds};
use crate::changes::Change;
use crate::leaked::leak_all;
use net_names::{NoMemory, Prefix};
use route_choice::{RoundTables, SeedIds};
use stability_laws::SeedPlan;
use std::alloc::Global;

// The seeds of a prefix in a round: the announced paths, and what leakers leak of what they hold in the
// round before with the changes in place.
pub fn seeds_with(
    alloc: Global,
    plan: &SeedPlan,
    announced: &[Announced],
    tables: &[RoundTables],
    changes: &[Change],
    round: u32,
    prefix: Prefix,
) -> Result<SeedIds, NoMemory>
    requires { 1 ≤ round }
    ensures { IfOk result (AreSeedsWith plan.now announced.now tables.now changes.now round prefix) }
{
    let mut seeds = announced_seeds(alloc, announced, prefix)?;
    leak_all(plan, prefix, round, tables, changes, &mut seeds)?;
    Ok(seeds)
}
