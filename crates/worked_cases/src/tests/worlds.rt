//! What several modules build: numbers, prefixes, paths, graphs, ranks, views, and routes as text.

ghost use Rattle.std.specs.Prelude.{◌≡◌, ℕ};
ghost use Rattle.as_graph.specs.Prelude.{HasNoProviderCycle, IsRank, relation};
ghost use Rattle.rank_order.specs.Prelude.{rank_after, IsLastPlan, rank_at};
ghost use Rattle.route_choice.specs.Prelude.{AreEntriesLive};

use as_graph::{Graph, links_are_sound, ranks_fit};
use caida_reader::read_links;
use net_names::{Asn, Path, Prefix, Rel, State, read_prefix};
use path_pool::PathPool;
use policy_laws::{RoutePolicy, View};
use rank_order::{RankPlan, Ranks};
use reports::put_routes;
use route_choice::Table;
use std::alloc::Global;
use std::process::Abort;

pub(super) fn number(rt: &impl Abort, n: u32) -> Asn
    ensures { result ≡ n }
{
    Asn::new(n).expect(rt, "a number of an AS")
}

pub(super) fn prefix(rt: &impl Abort, text: &[u8]) -> Prefix {
    read_prefix(text).expect(rt, "a prefix")
}

pub(super) fn main_prefix(rt: &impl Abort) -> Prefix {
    prefix(rt, b"192.0.2.0/24")
}

pub(super) fn path_of(rt: &impl Abort, alloc: Global, numbers: &[Asn]) -> Path
    ensures { result ≡ numbers.now }
{
    Path::from_vec(numbers.to_vec(alloc).expect(rt, "memory"))
}

// The graph of a relationship file.
pub(super) fn graph_of(rt: &impl Abort, alloc: Global, links: &[u8]) -> Graph {
    let links = read_links(alloc, links).expect(rt, "links");
    Graph::build(alloc, &links).expect(rt, "a graph")
}

pub(super) fn ranks_of(rt: &impl Abort, alloc: Global, graph: &Graph) -> Ranks
    ensures ranks { (a : ℕ) → IsRank (relation graph.now) a (rank_at result a) }
    ensures no_cycle { HasNoProviderCycle (relation graph.now) }
{
    match Ranks::build(alloc, graph) {
        Ok(ranks) => ranks,
        Err(_) => panic!(rt; "ranks"),
    }
}

// The ranks of a graph, and the plan of them after no edit.
pub(super) fn planned_ranks(rt: &impl Abort, alloc: Global, graph: &Graph) -> (Ranks, RankPlan)
    ensures no_cycle { HasNoProviderCycle (relation graph.now) }
    ensures last { IsLastPlan result.0 result.1 }
    ensures after { (a : ℕ) → IsRank (relation graph.now) a (rank_after result.0 result.1 a) }
{
    links_are_sound();
    ranks_fit();
    let mut ranks = ranks_of(rt, alloc, graph);
    match ranks.plan(alloc, graph, &[]) {
        Ok(plan) => (ranks, plan),
        Err(_) => panic!(rt; "memory"),
    }
}

pub(super) fn view(
    rt: &impl Abort,
    rel: Rel,
    neighbour: u32,
    length: u32,
    state: State,
    otc: Option<Asn>,
) -> View {
    View {
        rel,
        neighbour: number(rt, neighbour),
        length,
        state,
        otc,
    }
}

// What the bound of a policy gives, so that each call goes through the trait.
pub(super) fn likes<P: RoutePolicy>(policy: &P, x: &View, y: &View) -> bool {
    policy.before(x, y) && !policy.before(y, x)
}

pub(super) fn takes<P: RoutePolicy>(policy: &P, v: &View) -> bool {
    policy.accepts(v)
}

// The row of each AS of the graph by what the table holds.
pub(super) fn expect_routes(
    rt: &impl Abort,
    alloc: Global,
    graph: &Graph,
    table: &Table,
    pool: &PathPool,
    rows: &[u8],
)
    requires { AreEntriesLive pool.now table.now }
{
    let mut out = Vec::new(alloc);
    put_routes(&mut out, graph, table, pool).expect(rt, "memory");
    assert!(rt; out.as_slice() == rows);
}
