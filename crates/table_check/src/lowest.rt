//! The lowest number that is wrong in a routing.
ghost use Rattle.std.specs.Prelude.{◌≡◌, ◌↔◌, ℕ, ◌<◌, IsTrue, None, IfSome, IfNone};
ghost use Rattle.std.specs.FinMap as map;
ghost use Rattle.as_graph.specs.Prelude.{has, IsAbove};
ghost use Rattle.stability_laws.specs.Prelude.{setting_in};
ghost use Rattle.table_check.specs.Rows.{held_by};
ghost use Rattle.table_check.specs.Walk.{IsFine, IsLowestWrong, IsNextNamed, IsUnnamed, lower_of};

use crate::near::is_right_near;
use crate::placed::Placed;
use as_graph::Graph;
use net_names::{Asn, Prefix};
use policy_laws::{OriginStates, RoutePolicy};
use stability_laws::{Routing, Seeds, World, check_at};

// Whether the routing, which is that of the section, is right at the number, where it is an AS, or has no entry there.
fn is_fine<P: RoutePolicy, V: OriginStates>(
    world: &World<'_, P, V>,
    prefix: Prefix,
    seeds: &Seeds,
    routing: &Routing,
    placed: &Placed<'_>,
    asn: Asn,
) -> bool
    requires { (a : ℕ) → map.get routing.now a ≡ held_by placed.now.table.now placed.now.round a }
    ensures { IsTrue result ↔ IsFine (setting_in P.meaning V.state_of world.now prefix) (map.get seeds.now)
        (map.get routing.now) asn }
{
    if !world.graph.has(asn) {
        return routing.get(asn).is_none();
    }
    let place = world.graph.place_near(asn, 0);
    if is_right_near(world, prefix, seeds, placed, asn, place) {
        return true;
    }
    check_at(world, prefix, seeds, routing, asn).is_ok()
}

// The lower one of two numbers that may be missing.
fn lower(one: Option<Asn>, other: Option<Asn>) -> Option<Asn>
    ensures { result ≡ lower_of one other }
{
    let Some(a) = one else {
        return other;
    };
    let Some(b) = other else {
        return one;
    };
    if b.get() < a.get() { other } else { one }
}

// The least number above `after` that is an AS or holds something, or the least of all where there
// is no bound.
fn next_named(graph: &Graph, routing: &Routing, after: Option<Asn>) -> Option<Asn>
    ensures found { IfSome result (IsNextNamed (has graph.now) (map.get routing.now) after) }
    ensures none { IfNone result ((k : ℕ) → IsAbove after k → IsUnnamed (has graph.now) (map.get routing.now) k) }
{
    match after {
        Some(bound) => lower(graph.next(Some(bound)), routing.next(Some(bound))),
        None => lower(graph.next(None), routing.next(None)),
    }
}

/// The lowest number at which the routing, which is that of the section, is wrong; `None` exactly where there is none.
pub(crate) fn lowest_wrong<P: RoutePolicy, V: OriginStates>(
    world: &World<'_, P, V>,
    prefix: Prefix,
    seeds: &Seeds,
    routing: &Routing,
    placed: &Placed<'_>,
) -> Option<Asn>
    requires { (a : ℕ) → map.get routing.now a ≡ held_by placed.now.table.now placed.now.round a }
    ensures found { IfSome result (IsLowestWrong (setting_in P.meaning V.state_of world.now prefix) (map.get seeds.now)
        (map.get routing.now)) }
    ensures none { IfNone result ((a : ℕ) → IsFine (setting_in P.meaning V.state_of world.now prefix)
        (map.get seeds.now) (map.get routing.now) a) }
{
    let mut after: Option<Asn> = None;
    'named: while let Some(asn) = next_named(world.graph, routing, after) {
        if !is_fine(world, prefix, seeds, routing, placed, asn) {
            return Some(asn);
        }
        // A number has 32 bits, so that the walk ends.
        let _number = asn.get();
        after = Some(asn);
    }
    None
}
