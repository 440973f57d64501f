//! The seeds of a section.
ghost use Rattle.std.specs.Prelude.{◌≡◌, ◌≢◌, ◌+◌, ◌-◌, ◌<◌, ◌^◌, ℕ, None, OnOk, IfOk, if◌then◌else◌};
ghost use Rattle.std.specs.FinMap as map;
ghost use Rattle.stability_laws.specs.Prelude.{leaks_in, seeds_of};
ghost use Rattle.table_check.specs.Rows.{held_by};

use crate::rows::{Rows, put_copy};
use net_names::{Asn, NoMemory, Prefix};
use stability_laws::{Routing, SeedPlan, Seeds, seeds_at};
use std::alloc::Global;

// Makes the AS hold what it holds by the rows of the round.
fn put_held(
    alloc: Global,
    table: &Rows,
    round: u32,
    asn: Asn,
    routing: &mut Routing,
) -> Result<(), NoMemory>
    ensures this { OnOk result (map.get routing.new asn ≡ held_by table.now round asn) }
    ensures others { OnOk result ((a : ℕ) → a ≢ asn → map.get routing.new a ≡ map.get routing.old a) }
{
    table.paths_are_short();
    match table.held(round, asn) {
        Some(entry) => put_copy(alloc, routing, asn, entry),
        None => {
            routing.clear(asn);
            Ok(())
        }
    }
}

// What those who leak in the round after `before` hold in `before`; the others hold nothing here.
fn held_by_leakers(
    alloc: Global,
    plan: &SeedPlan,
    table: &Rows,
    before: u32,
) -> Result<Routing, NoMemory>
    requires { before < 2 ^ 32 - 1 }
    ensures { IfOk result (λ f. (a : ℕ) →
        map.get f a ≡ (if leaks_in plan.now (before + 1) a then held_by table.now before a else None)) }
{
    let round = before + 1;
    let mut routing = Routing::new(alloc);
    'leakers: for asn in plan.leakers(round) {
        put_held(alloc, table, before, *asn, &mut routing)?;
    }
    Ok(routing)
}

/// The seeds of the section after `before`.
pub(crate) fn seeds_after(
    alloc: Global,
    plan: &SeedPlan,
    prefix: Prefix,
    table: &Rows,
    before: u32,
) -> Result<Seeds, NoMemory>
    requires { before < 2 ^ 32 - 1 }
    ensures { IfOk result (λ s. (a : ℕ) →
        map.get s a ≡ seeds_of plan.now (before + 1) prefix (held_by table.now before) a) }
{
    let held = held_by_leakers(alloc, plan, table, before)?;
    seeds_at(alloc, plan, before + 1, prefix, &held)
}
