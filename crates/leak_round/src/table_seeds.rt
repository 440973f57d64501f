//! The seeds of one table after an edit, and the ASes that may hold something wrong there.

ghost use Rattle.std.specs.Prelude.{◌≡◌, ◌≤◌, Some, slice_get, IfOk, IsTrue};
ghost use Rattle.stability_laws.specs.Prelude.{prefixes_of};
ghost use Rattle.route_choice.specs.declared.seeds.SeedIds.{SeedIds as SomeSeeds};
ghost use Rattle.route_choice.specs.Prelude.{AreSeedsLive};
ghost use Rattle.leak_round.specs.Differing.{ids_of};
ghost use Rattle.leak_round.specs.Findings.{AreSeedsAfter, AreSeedsBefore, AreWrongBy};

use crate::changes::Change;
use crate::differing::put_wrong;
use crate::edited::{announcements_after, plan_after};
use crate::finding::Finding;
use crate::own_seeds::{edited_seeds, unchanged_seeds};
use crate::round_prefix::RoundPrefix;
use crate::round_seeds::seeds_with;
use net_names::{Asn, NoMemory};
use path_pool::PathPool;
use route_choice::{RoundTables, SeedIds};

/// The seeds of a table: some that are kept, or a list of their own.
#[derive(Drop)]
pub enum TableSeeds<'a> {
    Kept(&'a SeedIds),
    Listed(SeedIds),
}

impl<'a> TableSeeds<'a> {
    /// The seeds.
    pub fn ids(&self) -> &SeedIds
        ensures { result.now ≡ ids_of self.now }
    {
        match self {
            TableSeeds::Kept(kept) => *kept,
            TableSeeds::Listed(listed) => listed,
        }
    }
}

// The seeds of a table after the edit, with the changes so far in place.
fn seeds_after_edit<P, V>(
    finding: &Finding<'_, P, V>,
    at: &RoundPrefix,
    tables: &[RoundTables],
    changes: &[Change],
) -> Result<SeedIds, NoMemory>
    requires { 1 ≤ at.now.round }
    ensures { IfOk result (AreSeedsAfter finding.now at.now tables.now changes.now) }
{
    let plan = plan_after(finding.edited, finding.plan);
    let announced = announcements_after(finding.edited, finding.announced);
    seeds_with(
        finding.alloc,
        plan,
        announced,
        tables,
        changes,
        at.round,
        at.prefix,
    )
}

// The seeds of a table after the edit, and in the list, in place of what it has, the ASes that are touched for the
// prefix or had another seed before. Seeds that are kept are not listed again, and where the seeds stay, as `kept` says,
// they are listed once.
pub fn seeds_and_wrong<'a, P, V>(
    finding: &Finding<'a, P, V>,
    at: &RoundPrefix,
    tables: &[RoundTables],
    changes: &[Change],
    pool: &PathPool,
    kept: bool,
    ases: &mut Vec<Asn>,
) -> Result<TableSeeds<'a>, NoMemory>
    requires from { 1 ≤ at.now.round }
    requires place { slice_get (prefixes_of finding.now.plan.now) at.now.place ≡ Some at.now.prefix }
    requires before { (seeds : SomeSeeds) → AreSeedsBefore finding.now at.now tables.now seeds →
        AreSeedsLive pool.now seeds }
    requires after { (seeds : SomeSeeds) → AreSeedsAfter finding.now at.now tables.now changes.now seeds →
        AreSeedsLive pool.now seeds }
    requires kept { IsTrue kept → (seeds : SomeSeeds) → AreSeedsBefore finding.now at.now tables.now seeds →
        AreSeedsAfter finding.now at.now tables.now changes.now seeds }
    ensures { IfOk result (λ s.
        AreWrongBy finding.now at.now tables.now changes.now pool.now (ids_of s) ases.new.items) }
{
    let (alloc, own, plan, edited) = (finding.alloc, finding.own, finding.plan, finding.edited);
    if let Some(seeds) = unchanged_seeds(own, plan, edited, at) {
        finding.touched.put_ases(at.prefix, ases)?;
        return Ok(TableSeeds::Kept(seeds));
    }
    if let Some((before, seeds)) = edited_seeds(own, plan, edited, at) {
        put_wrong(alloc, pool, finding.touched, at.prefix, before, seeds, ases)?;
        return Ok(TableSeeds::Kept(seeds));
    }
    let before = seeds_with(
        alloc,
        plan,
        finding.announced,
        tables,
        &[],
        at.round,
        at.prefix,
    )?;
    if kept {
        finding.touched.put_ases(at.prefix, ases)?;
        return Ok(TableSeeds::Listed(before));
    }
    let seeds = seeds_after_edit(finding, at, tables, changes)?;
    put_wrong(
        alloc,
        pool,
        finding.touched,
        at.prefix,
        &before,
        &seeds,
        ases,
    )?;
    Ok(TableSeeds::Listed(seeds))
}
