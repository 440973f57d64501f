//! The check of a printed table.
ghost use Rattle.std.specs.Prelude.{◌<◌, ◌+◌, ◌-◌, ◌^◌, IfOk};
ghost use Rattle.stability_laws.specs.Prelude.{setting_in, seeds_of};
ghost use Rattle.table_check.specs.Checked.{IsVerdict};
ghost use Rattle.table_check.specs.Rows.{held_by};
ghost use Rattle.table_check.specs.Walk.{IsFault};

use crate::everywhere::is_right_everywhere;
use crate::lowest::lowest_wrong;
use crate::placed::{Placed, held_by_rows, long_paths};
use crate::seeds::seeds_after;
use crate::tables::Tables;
use crate::verdict::{Fault, Verdict};
use net_names::NoMemory;
use policy_laws::{OriginStates, RoutePolicy};
use stability_laws::{SeedPlan, World, right_entry};
use std::alloc::Global;

// What is wrong in the section after `before`.
fn fault_after<P: RoutePolicy, V: OriginStates>(
    alloc: Global,
    world: &World<'_, P, V>,
    plan: &SeedPlan,
    tables: &Tables,
    before: u32,
) -> Result<Option<Fault>, NoMemory>
    requires { before < 2 ^ 32 - 1 }
    ensures { IfOk result (IsFault (setting_in P.meaning V.state_of world.now tables.now.prefix)
        (seeds_of plan.now (before + 1) tables.now.prefix (held_by tables.now.rows before))
        (held_by tables.now.rows (before + 1))) }
{
    let round = before + 1;
    let prefix = tables.prefix;
    let table = &tables.rows;
    let seeds = seeds_after(alloc, plan, prefix, table, before)?;
    let rows = world.graph.rows();
    let (briefs, held) = held_by_rows(alloc, rows, table, round)?;
    let long = long_paths(alloc, world.graph, table, round, &briefs)?;
    let placed = Placed::new(table, round, rows, &briefs, &held, &long);
    if is_right_everywhere(world, prefix, &seeds, &placed) {
        return Ok(None);
    }
    let routing = table.routing(alloc, round)?;
    let Some(asn) = lowest_wrong(world, prefix, &seeds, &routing, &placed) else {
        return Ok(None);
    };
    if !world.graph.has(asn) {
        return Ok(Some(Fault { asn, right: None }));
    }
    let right = right_entry(alloc, world, prefix, &seeds, &routing, asn)?;
    Ok(Some(Fault { asn, right }))
}

/// Whether each section of the table is right everywhere: `Stable` exactly where each AS of the graph
/// is right in each section, with the seeds that follow from the section before, and no other number
/// has an entry. `Wrong` names the first section with somebody who is wrong, its lowest such, and the
/// entry with which it would be right. `Err` where there is not enough memory.
pub fn check_tables<P: RoutePolicy, V: OriginStates>(
    alloc: Global,
    world: &World<'_, P, V>,
    plan: &SeedPlan,
    tables: &Tables,
) -> Result<Verdict, NoMemory>
    ensures { IfOk result
        (IsVerdict (setting_in P.meaning V.state_of world.now tables.now.prefix) plan.now tables.now) }
{
    for before in 0..tables.starts.len() {
        let found = fault_after(alloc, world, plan, tables, before)?;
        if let Some(fault) = found {
            return Ok(Verdict::Wrong {
                round: before + 1,
                asn: fault.asn,
                right: fault.right,
            });
        }
    }
    Ok(Verdict::Stable)
}
