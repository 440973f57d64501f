//! The columns of a watch, of which each has an entry for each place.
ghost use Rattle.std.specs.Prelude.{◌≡◌, ℕ, ◌<◌, ◌≤◌, true, not, length, IfOk, nat_eq};
ghost use Rattle.data_trace.specs.declared.places.TheConstants.{PLACE_LIMIT};
ghost use Rattle.std.specs.List.{list_any, IsDistinct};
ghost use Rattle.net_names.specs.Prelude.{occurs};
ghost use Rattle.as_graph.specs.Prelude.{has};
ghost use Rattle.route_choice.specs.Prelude.{round_routing, AreAllLive};
ghost use Rattle.stability_laws.specs.Prelude.{policy_at};
ghost use Rattle.data_trace.specs.Hops.{next_hop as next_hop_of};
ghost use Rattle.data_trace.specs.NextHops.{hops_by};
ghost use Rattle.data_trace.specs.Columns.{named, name_at, is_customer, is_here as is_here_standing, is_stub as is_stub_standing, AreHops, AreGroups, IsGroup, IsAmong};
ghost use Rattle.data_trace.specs.declared.places.PlaceHop.TheVariants as APlaceHop;
ghost use Rattle.as_graph.specs.declared.build.TheConstants.{MOST_ASES};

use crate::Hop;
use crate::forwarding::Forwarding;
use crate::hints::Hints;
use crate::packed::{PackedHop, PackedMark};
use crate::places::{Group, PlaceHop, Standing};
use crate::sums::Sums;
use as_graph::{Graph, Neighbour, links_are_sound};
use as_places::AsPlaces;
use net_names::{Addr, Asn, NoMemory, Rel};
use path_pool::PathPool;
use policy_laws::Labelled;
use route_choice::RoundTables;
use stability_laws::{Book, SeedPlan};
use std::alloc::Global;

/// Of each place its next hop, what is known of its end, and its groups; and the sums, which count the
/// places by end and group.
#[derive(Drop)]
pub struct Columns {
    pub hops: Vec<PackedHop>,
    pub marks: Vec<PackedMark>,
    pub groups: Vec<Group>,
    pub sums: Sums,
}

/// The ASes of the graph, each at its place.
pub fn ases_of(alloc: Global, graph: &Graph) -> Result<AsPlaces, NoMemory>
    ensures listed { IfOk result (λ p. (a : ℕ) → occurs a p.ases ≡ has graph.now a) }
    ensures few { IfOk result (λ p. length p.ases ≤ MOST_ASES) }
    ensures apart { IfOk result (λ p. IsDistinct nat_eq p.ases) }
{
    // `as_count` is called for its clause that there are few ASes, which the proof cites
    let _count = graph.as_count();
    AsPlaces::of(alloc, graph.ases())
}

/// The next hop, with the place in place of its AS, which is sought first at a place.
pub fn place_of(ases: &AsPlaces, hop: Hop, near: usize) -> PlaceHop
    requires among { IsAmong ases.now.ases hop }
    requires few { length ases.now.ases < PLACE_LIMIT }
    ensures named { named ases.now.ases result ≡ hop }
    ensures within { (y : ℕ) → result ≡ APlaceHop.To y → y < length ases.now.ases }
{
    match hop {
        Hop::Here => PlaceHop::Here,
        Hop::NoRoute => PlaceHop::NoRoute,
        Hop::To(asn) => match ases.place_near(asn, near) {
            Some(place) => PlaceHop::To(place as u32),
            None => unreachable!(),
        },
    }
}

// The next hop of each place.
fn hops_of(
    alloc: Global,
    forwarding: &Forwarding<'_>,
    ases: &AsPlaces,
    hints: &Hints,
) -> Result<Vec<PackedHop>, NoMemory>
    requires among { (a : ℕ) → IsAmong ases.now.ases (hops_by forwarding.now a) }
    requires few { length ases.now.ases ≤ MOST_ASES }
    ensures { IfOk result (λ v. AreHops (hops_by forwarding.now) ases.now.ases v.items) }
{
    let numbers = ases.as_slice();
    let mut hops = Vec::with_capacity(alloc, numbers.len())?;
    for place in 0..numbers.len() {
        let hop = forwarding.next(numbers[place], place);
        let near = hints.near(&hop);
        let placed = place_of(ases, hop, near);
        hops.push(PackedHop::of(placed))?;
    }
    Ok(hops)
}

/// The next hop of each place, in the round of the tables and to the address. The hints are those of
/// the ASes.
pub fn next_hops(
    alloc: Global,
    tables: &RoundTables,
    pool: &PathPool,
    plan: &SeedPlan,
    addr: Addr,
    ases: &AsPlaces,
    hints: &Hints,
) -> Result<Vec<PackedHop>, NoMemory>
    requires live { AreAllLive pool.now tables.now }
    requires among { (a : ℕ) →
        IsAmong ases.now.ases (next_hop_of plan.now (round_routing pool.now tables.now) addr a) }
    requires few { length ases.now.ases ≤ MOST_ASES }
    ensures { IfOk result (λ v.
        AreHops (next_hop_of plan.now (round_routing pool.now tables.now) addr) ases.now.ases v.items) }
{
    let forwarding = Forwarding::new(alloc, tables, pool, plan, addr)?;
    hops_of(alloc, &forwarding, ases, hints)
}

// Whether no neighbour is a customer.
fn is_stub(neighbours: &[Neighbour]) -> bool
    ensures { result ≡ not (list_any (λ n. is_customer n.rel) neighbours.now) }
{
    for neighbour in neighbours {
        if neighbour.rel == Rel::Customer {
            return false;
        }
    }
    true
}

/// Whether the AS of a place is there.
pub fn is_here(standing: Standing) -> bool
    ensures { result ≡ is_here_standing standing }
{
    match standing {
        Standing::Gone => false,
        Standing::Stub => true,
        Standing::Transit => true,
    }
}

// What an AS of the graph is, by its neighbours.
fn standing(neighbours: &[Neighbour]) -> Standing
    ensures here { is_here_standing result ≡ true }
    ensures stub { is_stub_standing result ≡ not (list_any (λ n. is_customer n.rel) neighbours.now) }
{
    if is_stub(neighbours) {
        Standing::Stub
    } else {
        Standing::Transit
    }
}

// The groups of an AS of the graph, whose row is sought first at a place.
fn group_of<P: Labelled>(graph: &Graph, book: &Book<P>, asn: Asn, place: usize) -> Group
    requires { has graph.now asn ≡ true }
    ensures { IsGroup graph.now (λ a. P.label_of (policy_at book.now a)) asn result }
{
    Group {
        standing: standing(graph.neighbours_near(asn, place)),
        label: book.policy(asn).label(),
    }
}

/// Whether an AS is in the graph. Its row is sought first at a place.
pub fn is_in(graph: &Graph, asn: Asn, place: usize) -> bool
    ensures { result ≡ has graph.now asn }
{
    links_are_sound();
    !graph.neighbours_near(asn, place).is_empty() || graph.has(asn)
}

/// The groups of an AS, be it in the graph or not. Its row is sought first at a place.
pub fn group_now<P: Labelled>(graph: &Graph, book: &Book<P>, asn: Asn, place: usize) -> Group
    ensures { IsGroup graph.now (λ a. P.label_of (policy_at book.now a)) asn result }
{
    if is_in(graph, asn, place) {
        group_of(graph, book, asn, place)
    } else {
        Group {
            standing: Standing::Gone,
            label: 0,
        }
    }
}

/// The groups of each place.
pub fn groups_of<P: Labelled>(
    alloc: Global,
    graph: &Graph,
    book: &Book<P>,
    ases: &[Asn],
) -> Result<Vec<Group>, NoMemory>
    requires { (x : ℕ) → x < length ases.now → has graph.now (name_at ases.now x) ≡ true }
    ensures { IfOk result (λ v. AreGroups graph.now (λ a. P.label_of (policy_at book.now a)) ases.now v.items) }
{
    let mut groups = Vec::with_capacity(alloc, ases.len())?;
    for place in 0..ases.len() {
        groups.push(group_of(graph, book, ases[place], place))?;
    }
    Ok(groups)
}
