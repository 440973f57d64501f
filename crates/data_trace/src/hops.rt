//! Where an AS sends a packet.
ghost use Rattle.std.specs.Prelude.{◌≡◌};
ghost use Rattle.route_choice.specs.Prelude.{round_routing, AreAllLive};
ghost use Rattle.data_trace.specs.Hops.{next_hop as next_hop_of};
ghost use Rattle.data_trace.specs.Best.{held_in, best_in, holding};

use crate::Hop;
use crate::best::Best;
use net_names::{Addr, Asn, Prefix, holds};
use path_pool::PathPool;
use route_choice::{Held, RoundTables};
use stability_laws::SeedPlan;

// What an AS holds of a prefix, sought first at a place.
fn held(tables: &RoundTables, prefix: Prefix, asn: Asn, place: usize) -> Option<Held>
    ensures { result ≡ held_in tables.now prefix asn }
{
    tables.table(prefix)?.get_near(asn, place)
}

// The best entry of an AS among the prefixes of the plan that hold the address. It is sought first at a
// place.
fn best_of_plan(
    tables: &RoundTables,
    plan: &SeedPlan,
    asn: Asn,
    place: usize,
    addr: Addr,
) -> Option<Best>
    ensures { result ≡ best_in tables.now asn (holding plan.now addr) }
{
    let mut best = None;
    for prefix in plan.prefixes() {
        if holds(*prefix, addr) {
            best = Best::better(best, *prefix, held(tables, *prefix, asn, place));
        }
    }
    best
}

/// Where an AS sends a packet to the address, as [`next_hop`] gives it. Its entries are sought first at a
/// place, which is a hint.
pub fn next_hop_near(
    tables: &RoundTables,
    pool: &PathPool,
    plan: &SeedPlan,
    asn: Asn,
    place: usize,
    addr: Addr,
) -> Hop
    requires { AreAllLive pool.now tables.now }
    ensures { result ≡ next_hop_of plan.now (round_routing pool.now tables.now) addr asn }
{
    Best::hop(
        pool,
        plan,
        asn,
        true,
        best_of_plan(tables, plan, asn, place, addr),
    )
}

/// Where an AS sends a packet to the address, in the round of the tables. It goes by the longest prefix
/// of the plan that holds the address and of which the AS has an entry: the packet is delivered where
/// the AS announces that prefix, whatever the class of its entry, and else goes to the second AS of the
/// entry's path. With no such prefix there is no route.
///
/// The path of every entry is live. It takes no memory, and time by the number of prefixes.
/// Source: RFC 4632, section 5.1, for the longest prefix.
pub fn next_hop(tables: &RoundTables, pool: &PathPool, plan: &SeedPlan, asn: Asn, addr: Addr) -> Hop
    requires { AreAllLive pool.now tables.now }
    ensures { result ≡ next_hop_of plan.now (round_routing pool.now tables.now) addr asn }
{
    next_hop_near(tables, pool, plan, asn, 0, addr)
}
