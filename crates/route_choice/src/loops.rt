//! Whether a path that is offered to an AS may go through it.
//!
//! Only then an AS walks a path in search of itself. By the ranks that is so only of a path with the origin of a seed's path
//! on which the AS stands.

ghost use Rattle.std.specs.Prelude.{◌≡◌, ℕ, Some, false};
ghost use Rattle.net_names.specs.Prelude.{last_or};
ghost use Rattle.stability_laws.specs.declared.entry.Entry.{Entry as AnEntry};
ghost use Rattle.route_choice.specs.NamedSets.{is_named};
ghost use Rattle.route_choice.specs.PrefixWorlds.{AreGiversAt, HasLoopsFromAt, HasNoLoopsAt};
ghost use Rattle.route_choice.specs.Resources.{AreLive};
ghost use Rattle.route_choice.specs.Routings.{routing_of};

use crate::looks::held_near;
use crate::{NamedSet, Overlay, PlacedAs, PrefixWorld, Table, Turn};
use as_graph::Neighbour;
use net_names::{Asn, place_at};
use path_pool::PathPool;
use policy_laws::{OriginStates, RoutePolicy};

// Whether a giver holds a path with the origin of one on which an AS stands.
fn has_origin_of(
    table: &Table,
    overlay: &Overlay,
    pool: &PathPool,
    named: &NamedSet,
    asn: Asn,
    giver: PlacedAs,
) -> bool
    requires { AreLive pool.now table.now overlay.now }
    ensures { result ≡ false → (e : AnEntry) → routing_of pool.now table.now overlay.now giver.asn ≡ Some e →
        is_named named.now asn (last_or 0 e.path) ≡ false }
{
    match held_near(table, overlay, giver.asn, giver.place) {
        Some(held) => named.has_with(asn, pool.last(held.path)),
        None => false,
    }
}

/// Whether a path that these neighbours offer may go through the AS of a turn, where all that make it an offer of
/// the part are among them, and each path that is offered and goes through the AS has an origin with which the AS
/// is named. The places, in the order of the neighbours, are hints. An AS with a seed takes no offer, so that
/// none is looked at. Walks along no path.
#[inline(never)]
pub fn may_loop_among<P: RoutePolicy, V: OriginStates>(
    at: &PrefixWorld<'_, P, V>,
    named: &NamedSet,
    pool: &PathPool,
    overlay: &Overlay,
    turn: &Turn,
    neighbours: &[Neighbour],
    places: &[u32],
) -> bool
    requires live { AreLive pool.now at.now.table.now overlay.now }
    requires givers { AreGiversAt P.meaning at.now pool.now overlay.now turn.now.part turn.now.asn neighbours.now }
    requires loops { HasLoopsFromAt P.meaning at.now pool.now overlay.now turn.now.part turn.now.asn
        (is_named named.now turn.now.asn) }
    ensures { result ≡ false → HasNoLoopsAt P.meaning at.now pool.now overlay.now turn.now.part turn.now.asn }
{
    if at.seeds.get(turn.asn).is_some() {
        return true;
    }
    for (index, neighbour) in neighbours.iter().enumerate() {
        let giver = PlacedAs {
            asn: neighbour.asn,
            place: place_at(places, index),
        };
        if has_origin_of(at.table, overlay, pool, named, turn.asn, giver) {
            return true;
        }
    }
    false
}
