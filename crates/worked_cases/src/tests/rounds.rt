//! Rounds that are planned anew, and whose paths are moved to another pool, worked by hand.

ghost use Rattle.std.specs.Prelude.{◌≡◌, ℕ, ◌<◌, ◌≤◌, true, false, IsTrue};
ghost use Rattle.as_graph.specs.Prelude.{has};
ghost use Rattle.leak_round.specs.Prelude.{IsWithinLimits, IsOpenPlan, kept_with, plan_after, is_open, kept, plan_of as planned, pool_of, round_count};
ghost use Rattle.leak_round.specs.declared.limits.TheConstants.{MOST_ROUNDS};
ghost use Rattle.leak_round.specs.declared.rounds.TheConstants.{MOST_CELLS};
ghost use Rattle.net_names.specs.Prelude.{PrefixValue};
ghost use Rattle.net_names.specs.declared.routes.State.TheVariants.{NotFound};
ghost use Rattle.path_pool.specs.Pool.{live_count};
ghost use Rattle.policy_kinds.specs.Prelude.{kind_policy};
ghost use Rattle.stability_laws.specs.Prelude.{Setting, announces, AreRounds, setting};

use super::lent_worlds::{LEAK, LEAKING, base_of};
use super::narrow_policy::{LINKS, ROWS};
use super::worlds::{expect_routes, number, planned_ranks, prefix, ranks_of};
use crate::Narrow;
use as_graph::Graph;
use dirty_recompute::PlannedRanks;
use leak_round::{Rounds, RoundsPlan, Touched};
use policy_kinds::Kind;
use policy_laws::{NoStates, RoutePolicy};
use route_choice::Steps;
use sim_core::Base;
use stability_laws::{Book, SeedEdit, SeedPlan, World};
use std::alloc::Global;
use std::marker::Brand;
use std::process::Abort;
use std::sync::ledger::{Blank, Ledger};

fn expect_round(
    rt: &impl Abort,
    alloc: Global,
    graph: &Graph,
    rounds: &Rounds,
    round: u32,
    rows: &[u8],
) {
    let announced = prefix(rt, b"10.0.0.0/8");
    let tables = rounds.round(round).expect(rt, "a round");
    let table = tables.table(announced).expect(rt, "a table");
    expect_routes(rt, alloc, graph, table, rounds.pool(), rows);
}

// So many rounds of the plan, where there are no payloads.
fn rounds_of<P: RoutePolicy, L: Ledger>(
    rt: &impl Abort,
    alloc: Global,
    graph: &Graph,
    book: &Book<P>,
    plan: &SeedPlan,
    count: u32,
    steps: &mut Steps<L>,
) -> Rounds
    requires limits { IsWithinLimits plan.now }
    requires rounds { count ≤ MOST_ROUNDS }
    ensures closed { is_open result ≡ false }
    ensures few { live_count (pool_of result) ≤ MOST_CELLS }
    ensures plan { planned result ≡ plan.now }
    ensures stable { AreRounds (λ p. setting P.meaning graph.now book.now (λ origin. NotFound))
        (planned result) (round_count result) (kept result) }
{
    let ranks = ranks_of(rt, alloc, graph);
    let world = World {
        graph,
        book,
        states: &NoStates,
    };
    let Ok(plan) = plan.copied(alloc) else {
        panic!(rt; "memory");
    };
    match Rounds::build(alloc, &world, &ranks, plan, count, steps) {
        Ok(rounds) => rounds,
        Err(_) => panic!(rt; "memory"),
    }
}

// One round of the plan, where every AS has the narrow policy.
fn narrow<L: Ledger>(rt: &impl Abort, alloc: Global, base: &Base, blank: Blank) -> Rounds
    requires ledger { (blank.name ≡ L.name) × (blank.parts ≡ L.parts) × (0 < L.parts) }
{
    let book = Book::new(alloc, Narrow);
    let mut steps = Steps::<L>::new(blank);
    let (graph, plan) = (base.graph(), base.plan());
    rounds_of(rt, alloc, graph, &book, plan, 1, &mut steps)
}

#[test]
fn a_round_of_the_narrow_policy_has_the_routing_of_propagation(rt: HostRuntime) {
    let scenario = br#"{"announcements":[{"prefix":"10.0.0.0/8","as":3}]}"#;
    let base = base_of(&rt, rt.alloc(), LINKS, scenario);
    let rounds = narrow::<Brand>(&rt, rt.alloc(), &base, Blank::new(1));
    expect_round(&rt, rt.alloc(), base.graph(), &rounds, 1, ROWS);
}

// Moves the paths of rounds that are stable in some world of these ASes to a pool of their own.
fn tidy(rt: &impl Abort, alloc: Global, graph: &Graph, rounds: &mut Rounds)
    requires closed { is_open rounds.old ≡ false }
    requires stable { (world : PrefixValue → Setting)
        × ((p : PrefixValue) (a : ℕ) → (world p).has a ≡ has graph.now a)
        × AreRounds world (planned rounds.old) (round_count rounds.old) (kept rounds.old) }
{
    // What it answers has a bound, which the next call asks for.
    let _count = graph.as_count();
    rounds.tidy(alloc, graph.rows()).expect(rt, "memory");
}

// Two rounds of the plan, with their paths in a pool of their own.
fn tidied<L: Ledger>(
    rt: &impl Abort,
    alloc: Global,
    graph: &Graph,
    book: &Book<Kind>,
    plan: &SeedPlan,
    blank: Blank,
) -> Rounds
    requires limits { IsWithinLimits plan.now }
    requires ledger { (blank.name ≡ L.name) × (blank.parts ≡ L.parts) × (0 < L.parts) }
{
    let mut steps = Steps::<L>::new(blank);
    let mut rounds = rounds_of(rt, alloc, graph, book, plan, 2, &mut steps);
    tidy(rt, alloc, graph, &mut rounds);
    rounds
}

#[test]
fn tidied_rounds_hold_what_they_held(rt: HostRuntime) {
    let base = base_of(&rt, rt.alloc(), LEAK, LEAKING);
    let (graph, book) = (base.graph(), base.book());
    let rounds = tidied::<Brand>(&rt, rt.alloc(), graph, book, base.plan(), Blank::new(1));
    let plain = b"1|customer|1 5\n2|peer|2 1 5\n3|provider|3 1 5\n5|origin|5\n";
    let leaked = b"1|customer|1 5\n2|customer|2 3 1 5\n3|origin|3 1 5\n5|origin|5\n";
    expect_round(&rt, rt.alloc(), graph, &rounds, 1, plain);
    expect_round(&rt, rt.alloc(), graph, &rounds, 2, leaked);
    assert!(rt; rounds.pool().live() <= 9);
}

// What changes where AS 1 announces the prefix no more.
fn withdrawing<L: Ledger>(
    rt: &impl Abort,
    alloc: Global,
    graph: &Graph,
    book: &Book<Kind>,
    rounds: &mut Rounds,
    steps: &mut Steps<L>,
) -> RoundsPlan
    requires closed { is_open rounds.old ≡ false }
    requires few { live_count (pool_of rounds.old) ≤ MOST_CELLS }
    requires limits { IsWithinLimits (planned rounds.old) }
    requires announcers { (p : PrefixValue) (a : ℕ) → IsTrue (announces (planned rounds.old) p a) →
        has graph.now a ≡ true }
    requires stable { AreRounds (λ p. setting kind_policy graph.now book.now (λ origin. NotFound))
        (planned rounds.old) (round_count rounds.old) (kept rounds.old) }
    ensures open { IsOpenPlan rounds.new result }
    ensures after { AreRounds (λ p. setting kind_policy graph.now book.now (λ origin. NotFound))
        (plan_after rounds.new result) (round_count rounds.new) (kept_with rounds.new result) }
    ensures plan { planned rounds.new ≡ planned rounds.old }
    ensures count { round_count rounds.new ≡ round_count rounds.old }
    ensures kept { (round : ℕ) (p : PrefixValue) (a : ℕ) → kept rounds.new round p a ≡ kept rounds.old round p a }
{
    let (announced, one) = (prefix(rt, b"10.0.0.0/8"), number(rt, 1));
    assert!(rt; rounds.seed_plan().has_prefix(announced));
    let (ranks, plan) = planned_ranks(rt, alloc, graph);
    let after = PlannedRanks {
        ranks: &ranks,
        plan: &plan,
    };
    let world = World {
        graph,
        book,
        states: &NoStates,
    };
    let edit = SeedEdit::Withdraw {
        prefix: announced,
        asn: one,
    };
    let touched = Touched::new(alloc);
    rounds
        .plan(alloc, &world, &after, &touched, Some(&edit), steps)
        .expect(rt, "memory")
}

// AS 1 announces the path that its customer gives it too. The plan of its withdrawal is given up at first, and then put
// in place: AS 1 has the same path from its customer, and AS 5 what it had. The cells that AS 1 announced are needed
// until the paths are moved: then five entries have one each, and the announced number of AS 4 has one.
fn withdrawn<L: Ledger>(
    rt: &impl Abort,
    alloc: Global,
    graph: &Graph,
    book: &Book<Kind>,
    plan: &SeedPlan,
    blank: Blank,
)
    requires limits { IsWithinLimits plan.now }
    requires announcers { (p : PrefixValue) (a : ℕ) → IsTrue (announces plan.now p a) → has graph.now a ≡ true }
    requires ledger { (blank.name ≡ L.name) × (blank.parts ≡ L.parts) × (0 < L.parts) }
{
    let mut steps = Steps::<L>::new(blank);
    let mut rounds = rounds_of(rt, alloc, graph, book, plan, 1, &mut steps);
    let plan = withdrawing(rt, alloc, graph, book, &mut rounds, &mut steps);
    rounds.undo(plan);
    assert!(rt; rounds.pool().live() <= 10);
    let rows =
        b"1|origin|1 2 3 4\n2|customer|2 3 4\n3|customer|3 4\n4|origin|4\n5|customer|5 1 2 3 4\n";
    expect_round(rt, alloc, graph, &rounds, 1, rows);
    let plan = withdrawing(rt, alloc, graph, book, &mut rounds, &mut steps);
    let done = rounds.commit(plan);
    assert!(rt; done.count() == 1 && done.changed_in(1) == [number(rt, 1)].as_slice());
    tidy(rt, alloc, graph, &mut rounds);
    assert!(rt; rounds.pool().live() <= 6);
    let rows =
        b"1|customer|1 2 3 4\n2|customer|2 3 4\n3|customer|3 4\n4|origin|4\n5|customer|5 1 2 3 4\n";
    expect_round(rt, alloc, graph, &rounds, 1, rows);
}

#[test]
fn a_withdrawal_is_given_up_and_put_in_place_and_its_cells_are_given_back(rt: HostRuntime) {
    let scenario =
        br#"{"announcements":[{"prefix":"10.0.0.0/8","as":4},{"prefix":"10.0.0.0/8","as":1,"path":[1,2,3,4]}]}"#;
    let base = base_of(
        &rt,
        rt.alloc(),
        b"5|1|-1\n1|2|-1\n2|3|-1\n3|4|-1\n",
        scenario,
    );
    let (graph, book) = (base.graph(), base.book());
    withdrawn::<Brand>(&rt, rt.alloc(), graph, book, base.plan(), Blank::new(1));
}
