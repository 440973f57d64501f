//! Whether a section is right everywhere.
ghost use Rattle.std.specs.Prelude.{◌≡◌, ℕ, true, IsTrue};
ghost use Rattle.std.specs.FinMap as map;
ghost use Rattle.as_graph.specs.Prelude.{has};
ghost use Rattle.stability_laws.specs.Prelude.{IsRight, setting_in};
ghost use Rattle.table_check.specs.Rows.{held_by};
ghost use Rattle.table_check.specs.Walk.{IsFine};

use crate::near::is_right_near;
use crate::placed::Placed;
use net_names::Prefix;
use policy_laws::{OriginStates, RoutePolicy};
use stability_laws::{Seeds, World};

// Whether it is quickly seen that the section is right at each AS of the graph.
fn are_right<P: RoutePolicy, V: OriginStates>(
    world: &World<'_, P, V>,
    prefix: Prefix,
    seeds: &Seeds,
    placed: &Placed<'_>,
) -> bool
    ensures { IsTrue result → (a : ℕ) → has world.now.graph.now a ≡ true →
        IsRight (setting_in P.meaning V.state_of world.now prefix) (map.get seeds.now)
        (held_by placed.now.table.now placed.now.round) a }
{
    let rows = world.graph.rows();
    let mut place = 0usize;
    for asn in rows {
        if !is_right_near(world, prefix, seeds, placed, *asn, place) {
            return false;
        }
        place = place.wrapping_add(1);
    }
    true
}

/// Whether it is quickly seen that the section is right at each AS of the graph and that nobody else holds anything.
pub(crate) fn is_right_everywhere<P: RoutePolicy, V: OriginStates>(
    world: &World<'_, P, V>,
    prefix: Prefix,
    seeds: &Seeds,
    placed: &Placed<'_>,
) -> bool
    ensures { IsTrue result → (a : ℕ) → IsFine (setting_in P.meaning V.state_of world.now prefix) (map.get seeds.now)
        (held_by placed.now.table.now placed.now.round) a }
{
    if !are_right(world, prefix, seeds, placed) {
        return false;
    }
    placed.table.are_inside(placed.round, world.graph)
}
