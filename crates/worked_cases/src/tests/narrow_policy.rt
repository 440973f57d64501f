//! What the narrow policy answers, and the stable routing where every AS has it, before and after an edit, worked by hand.

ghost use Rattle.std.specs.Prelude.{◌≡◌, ◌≢◌, ℕ, ◌<◌, ◌≤◌, None};
ghost use Rattle.net_names.specs.declared.routes.State.TheVariants.{NotFound};
ghost use Rattle.path_pool.specs.Pool.{count_of, live_count, limit_of};
ghost use Rattle.route_choice.specs.Prelude.{AreSeedsLive, seed_at};
ghost use Rattle.stability_laws.specs.Prelude.{setting};
ghost use Rattle.worked_cases.specs.Narrows.{narrow_policy};
ghost use Rattle.worked_cases.specs.Settled.{IsSettled};

use super::worlds::{
    expect_routes, graph_of, likes, main_prefix, number, planned_ranks, ranks_of, takes, view,
};
use crate::Narrow;
use as_graph::{Graph, ases_are_kept, links_are_taken};
use dirty_recompute::{PlannedRanks, PrefixEdit, plan_edit};
use net_names::{Asn, Class, Rel, State};
use path_pool::PathPool;
use policy_laws::{NoStates, RoutePolicy, View};
use route_choice::{Overlay, SeedHeld, SeedIds, Steps, Table};
use stability_laws::{Book, World, right_follows};
use std::alloc::Global;
use std::marker::Brand;
use std::process::Abort;
use std::sync::ledger::{Blank, Ledger};
use three_pass::propagate;

fn hands_on<P: RoutePolicy>(policy: &P, held: Class, to: Rel) -> bool {
    policy.exports(held, Asn::new(9), to)
}

// A view of an invalid route that carries the number 9, neither of which the narrow policy reads.
fn invalid(rt: &impl Abort, rel: Rel, neighbour: u32, length: u32) -> View {
    view(rt, rel, neighbour, length, State::Invalid, Asn::new(9))
}

#[test]
fn customers_then_shorter_paths_then_higher_neighbours_come_first(rt: HostRuntime) {
    let customer = invalid(&rt, Rel::Customer, 1, 3);
    let peer = invalid(&rt, Rel::Peer, 2, 2);
    let provider = invalid(&rt, Rel::Provider, 3, 2);
    let shorter = invalid(&rt, Rel::Peer, 1, 1);
    let long = invalid(&rt, Rel::Customer, 1, 4);
    assert!(rt; likes(&Narrow, &customer, &peer) && likes(&Narrow, &customer, &provider));
    assert!(rt; likes(&Narrow, &provider, &peer) && likes(&Narrow, &shorter, &provider));
    assert!(rt; takes(&Narrow, &customer) && !takes(&Narrow, &long));
    assert!(rt; !Narrow.reads_state() && !Narrow.marks());
}

#[test]
fn routes_of_customers_go_to_customers_and_peers(rt: HostRuntime) {
    for (to, across, down) in [
        (Rel::Customer, true, true),
        (Rel::Peer, true, false),
        (Rel::Provider, false, false),
    ] {
        assert!(rt; hands_on(&Narrow, Class::Origin, to));
        assert!(rt; hands_on(&Narrow, Class::Customer, to) == across);
        assert!(rt; hands_on(&Narrow, Class::Peer, to) == down);
        assert!(rt; hands_on(&Narrow, Class::Provider, to) == down);
    }
}

// A pool, the seed of an AS that announces the prefix, and what each AS holds of it.
#[derive(Drop)]
struct Settled {
    pool: PathPool,
    seeds: SeedIds,
    table: Table,
}

// A pool of so many cells and the seed of an AS that announces the prefix.
fn announce(rt: &impl Abort, alloc: Global, asn: Asn, limit: usize) -> (PathPool, SeedIds)
    requires { limit < 1000 }
    ensures only { (a : ℕ) → a ≢ asn → seed_at result.1 a ≡ None }
    ensures seeds { AreSeedsLive result.0 result.1 }
    ensures counts { (k : ℕ) → count_of result.0 k ≤ 1 }
    ensures live { live_count result.0 ≡ 1 }
    ensures limit { limit_of result.0 ≡ limit }
{
    let mut pool = PathPool::new(alloc, limit);
    let Ok(()) = pool.reserve(1) else {
        panic!(rt; "room");
    };
    let path = pool.cons(asn, None);
    let mut seeds = SeedIds::new(alloc);
    match seeds.put(asn, SeedHeld { path, otc: None }) {
        Ok(()) => (pool, seeds),
        Err(_) => panic!(rt; "memory"),
    }
}

// The stable routing of the prefix that the AS announces, in a pool of so many cells.
fn settle<L: Ledger>(
    rt: &impl Abort,
    alloc: Global,
    graph: &Graph,
    book: &Book<Narrow>,
    origin: Asn,
    limit: usize,
    steps: &mut Steps<L>,
) -> Settled
    requires { limit < 1000 }
    ensures settled { IsSettled (setting (λ p. narrow_policy) graph.now book.now (λ asn. NotFound))
        origin result.pool result.seeds result.table }
    ensures limit { limit_of result.pool ≡ limit }
{
    assert!(rt; 2 * graph.as_count() < limit);
    let (mut pool, seeds) = announce(rt, alloc, origin, limit);
    let ranks = ranks_of(rt, alloc, graph);
    let world = World {
        graph,
        book,
        states: &NoStates,
    };
    match propagate(
        alloc,
        &world,
        &ranks,
        main_prefix(rt),
        &seeds,
        &mut pool,
        steps,
    ) {
        Ok(table) => Settled { pool, seeds, table },
        Err(_) => panic!(rt; "memory"),
    }
}

// What changes of the table when the link between the two goes.
fn cut<L: Ledger>(
    rt: &impl Abort,
    alloc: Global,
    graph: &mut Graph,
    book: &Book<Narrow>,
    origin: Asn,
    ends: (Asn, Asn),
    at: &mut Settled,
    steps: &mut Steps<L>,
) -> Overlay
    requires settled { IsSettled (setting (λ p. narrow_policy) graph.old book.now (λ asn. NotFound))
        origin at.old.pool at.old.seeds at.old.table }
    requires limit { limit_of at.old.pool ≡ 100 }
{
    links_are_taken();
    ases_are_kept();
    right_follows::<Narrow>();
    let Ok(()) = graph.unlink(ends.0, ends.1) else {
        panic!(rt; "a link");
    };
    let (ranks, plan) = planned_ranks(rt, alloc, graph);
    let ranks = PlannedRanks {
        ranks: &ranks,
        plan: &plan,
    };
    let world = World {
        graph: &*graph,
        book,
        states: &NoStates,
    };
    let edit = PrefixEdit {
        seeds: &at.seeds,
        touched: &[ends.0, ends.1],
    };
    let (table, pool) = (&mut at.table, &mut at.pool);
    assert!(rt; world.graph.has(origin));
    assert!(rt; pool.live() < 50);
    assert!(rt; world.graph.as_count() < 20);
    match plan_edit(alloc, &world, &ranks, &edit, table, pool, steps) {
        Ok(overlay) => overlay,
        Err(_) => panic!(rt; "memory"),
    }
}

// What each AS holds where AS 3 announces a prefix.
pub(super) const LINKS: &[u8] = b"1|2|-1\n2|3|-1\n2|4|0\n4|5|-1\n";

pub(super) const ROWS: &[u8] = b"1|none|\n2|customer|2 3\n3|origin|3\n4|peer|4 2 3\n5|none|\n";

// In a pool that is just large enough and in a larger one; and without the link between AS 2 and AS 4, AS 4 holds nothing,
// and nothing else changes.
fn expect_settled_and_cut<L: Ledger>(rt: &impl Abort, alloc: Global, blank: Blank)
    requires name { blank.name ≡ L.name }
    requires parts { blank.parts ≡ L.parts }
    requires some { 0 < L.parts }
{
    let (two, three, four) = (number(rt, 2), number(rt, 3), number(rt, 4));
    let mut graph = graph_of(rt, alloc, LINKS);
    let book = Book::new(alloc, Narrow);
    let mut steps = Steps::<L>::new(blank);
    let tight = settle(rt, alloc, &graph, &book, three, 11, &mut steps);
    expect_routes(rt, alloc, &graph, &tight.table, &tight.pool, ROWS);
    let mut wide = settle(rt, alloc, &graph, &book, three, 100, &mut steps);
    expect_routes(rt, alloc, &graph, &wide.table, &wide.pool, ROWS);
    let ends = (two, four);
    let overlay = cut(
        rt, alloc, &mut graph, &book, three, ends, &mut wide, &mut steps,
    );
    assert!(rt; overlay.len() == 1 && overlay.get(four) == Some(None));
}

#[test]
fn a_route_stops_below_providers_after_three_ases_and_where_a_link_went(rt: HostRuntime) {
    expect_settled_and_cut::<Brand>(&rt, rt.alloc(), Blank::new(1));
}
