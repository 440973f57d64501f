//! The tables of one round.

ghost use Rattle.std.specs.Prelude.{◌≡◌, ◌+◌, ◌*◌, ◌≤◌, length, IsTrue, IfOk, OnOk};
ghost use Rattle.as_graph.specs.Prelude.{as_count};
ghost use Rattle.three_pass.specs.Prelude.{IsScratch};
ghost use Rattle.stability_laws.specs.Prelude.{IsStable, has_prefix, prefixes_of, seeds_of, setting_in};
ghost use Rattle.route_choice.specs.Prelude.{table_routing, round_routing};
ghost use Rattle.leak_round.specs.Growth.{HasRoomFor};
ghost use Rattle.leak_round.specs.Made.{CanMake, IsRoundMade, IsTableMade};
ghost use Rattle.leak_round.specs.Tables.{kept_in, IsRound};

use crate::building::Building;
use crate::round_seeds::seeds_with;
use net_names::{NoMemory, Prefix};
use path_pool::PathPool;
use policy_laws::{OriginStates, RoutePolicy};
use route_choice::{Overlay, RoundTables, Steps, Table, uses_are_counted};
use std::sync::ledger::Ledger;
use three_pass::propagate_along;

// The table of a prefix in a round. It is made in an overlay for the course.
fn make_table<P: RoutePolicy, V: OriginStates, L: Ledger>(
    building: &Building<'_, P, V>,
    earlier: &[RoundTables],
    round: u32,
    prefix: Prefix,
    pool: &mut PathPool,
    scratch: &mut Overlay,
    steps: &mut Steps<L>,
) -> Result<Table, NoMemory>
    requires can { CanMake P.meaning building.now pool.old earlier.now scratch.old }
    requires number { round ≡ length earlier.now + 1 }
    requires known { IsTrue (has_prefix building.now.plan.now prefix) }
    requires room { HasRoomFor pool.old 1 }
    ensures cost { steps.new ≤ steps.old + 2 * as_count building.now.world.now.graph.now }
    ensures stable { IfOk result (λ t. IsStable (setting_in P.meaning V.state_of building.now.world.now prefix)
        (seeds_of building.now.plan.now round prefix (kept_in pool.old earlier.now (length earlier.now) prefix))
        (table_routing pool.new t)) }
    ensures made { IfOk result (IsTableMade pool.old pool.new prefix) }
    ensures scratch { OnOk result (IsScratch building.now.way.now.course.now scratch.new) }
{
    let Building {
        alloc,
        world,
        way,
        plan,
        announced,
    } = *building;
    // `as_count` is called for its clause that there are at most 150,000 ASes.
    let _count = world.graph.as_count();
    let seeds = seeds_with(alloc, plan, announced, earlier, &[], round, prefix)?;
    let table = propagate_along(world, way, prefix, &seeds, pool, scratch, steps)?;
    uses_are_counted(&table);
    Ok(table)
}

// The tables of the next round after the earlier ones, one for each prefix. They are made in an overlay for the course.
pub fn make_round<P: RoutePolicy, V: OriginStates, L: Ledger>(
    building: &Building<'_, P, V>,
    earlier: &[RoundTables],
    pool: &mut PathPool,
    scratch: &mut Overlay,
    steps: &mut Steps<L>,
) -> Result<RoundTables, NoMemory>
    requires can { CanMake P.meaning building.now pool.old earlier.now scratch.old }
    requires room { HasRoomFor pool.old (length (prefixes_of building.now.plan.now)) }
    ensures cost { steps.new ≤
        steps.old + 2 * as_count building.now.world.now.graph.now * length (prefixes_of building.now.plan.now) }
    ensures stable { IfOk result (λ t. IsRound (setting_in P.meaning V.state_of building.now.world.now)
        building.now.plan.now (length earlier.now + 1)
        (kept_in pool.old earlier.now (length earlier.now)) (round_routing pool.new t)) }
    ensures made { IfOk result (IsRoundMade pool.old pool.new building.now.plan.now) }
    ensures scratch { OnOk result (IsScratch building.now.way.now.course.now scratch.new) }
{
    let round = earlier.len() as u32 + 1;
    let mut tables = RoundTables::new(building.alloc);
    let mut place = 0;
    'prefixes: while let Some(prefix) = building.plan.prefix_at(place) {
        let table = make_table(building, earlier, round, prefix, pool, scratch, steps)?;
        tables.push(table)?;
        place += 1;
    }
    Ok(tables)
}
