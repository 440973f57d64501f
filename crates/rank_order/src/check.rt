//! Whether a plan's numbers fit.
ghost use Rattle.std.specs.Prelude.{◌≡◌, ℕ, ◌<◌, ◌^◌, true, length};
ghost use Rattle.std.specs.List.Sorted.{IsStrictlyIncreasing};
ghost use Rattle.net_names.specs.Prelude.{occurs};
ghost use Rattle.net_names.specs.declared.routes.Rel.TheVariants.{Provider};
ghost use Rattle.as_graph.specs.Prelude.{has};
ghost use Rattle.rank_order.specs.Ranks.{rank_at};
ghost use Rattle.rank_order.specs.Plans.{is_numbered, rank_after};
ghost use Rattle.rank_order.specs.Mending.{IsNumberOver, Bears, AllBear, MendsAt, grown};

use crate::plan::RankPlan;
use crate::ranks::Ranks;
use as_graph::{Graph, Neighbour, links_are_sound};
use net_names::{Asn, Rel};

/// Whether the numbers rise.
pub fn is_rising(ases: &[Asn]) -> bool
    ensures { result ≡ true → IsStrictlyIncreasing ases.now }
{
    for at in 1..ases.len() {
        if ases[at - 1] >= ases[at] {
            return false;
        }
    }
    true
}

// The greater of a number and one more than the rank of a neighbour, if that is a customer.
fn with_neighbour(
    plan: &RankPlan,
    ranks: &Ranks,
    neighbour: Neighbour,
    place: usize,
    number: u64,
) -> u64
    requires { number < 2 ^ 33 }
    ensures few { result < 2 ^ 33 }
    ensures grown { result ≡ grown neighbour.rel (rank_after ranks.now plan.now neighbour.asn) number }
{
    match neighbour.rel {
        Rel::Customer => {
            let rank = plan.rank_near(ranks, neighbour.asn, place);
            number.max(u64::from(rank) + 1)
        }
        Rel::Peer | Rel::Provider => number,
    }
}

// One more than the greatest rank of the customers, 0 without customers.
fn number_over(plan: &RankPlan, ranks: &Ranks, neighbours: &[Neighbour], places: &[u32]) -> u64
    ensures { IsNumberOver (rank_after ranks.now plan.now) neighbours.now (length neighbours.now) result }
{
    let mut number = 0;
    for at in 0..neighbours.len() {
        let place = match places.get(at) {
            Some(place) => *place as usize,
            None => 0,
        };
        number = with_neighbour(plan, ranks, neighbours[at], place, number);
    }
    number
}

// Whether a provider bears the change of a customer's number.
fn bears(plan: &RankPlan, ranks: &Ranks, provider: Asn, before: u32, later: u32) -> bool
    ensures { result ≡ true → Bears (is_numbered plan.now) (rank_at ranks.now) before later provider }
{
    if plan.is_numbered(provider) {
        return true;
    }
    let rank = ranks.rank(provider);
    later < rank && before != rank - 1
}

// Whether a neighbour bears the change of a customer's number, if it is a provider.
fn bears_at(plan: &RankPlan, ranks: &Ranks, neighbour: Neighbour, before: u32, later: u32) -> bool
    ensures { result ≡ true → neighbour.rel ≡ Provider →
        Bears (is_numbered plan.now) (rank_at ranks.now) before later neighbour.asn }
{
    match neighbour.rel {
        Rel::Provider => bears(plan, ranks, neighbour.asn, before, later),
        Rel::Customer | Rel::Peer => true,
    }
}

// Whether each provider bears the change of a customer's number.
fn all_bear(
    plan: &RankPlan,
    ranks: &Ranks,
    neighbours: &[Neighbour],
    before: u32,
    later: u32,
) -> bool
    ensures { result ≡ true → AllBear (is_numbered plan.now) (rank_at ranks.now) before later
        neighbours.now (length neighbours.now) }
{
    for at in 0..neighbours.len() {
        if !bears_at(plan, ranks, neighbours[at], before, later) {
            return false;
        }
    }
    true
}

// Whether the plan's number fits at an AS of the graph, and its providers bear its change.
fn is_mended(graph: &Graph, plan: &RankPlan, ranks: &Ranks, asn: Asn) -> bool
    ensures inside { result ≡ true → has graph.now asn ≡ true }
    ensures mended { result ≡ true → MendsAt graph.now ranks.now plan.now asn }
{
    links_are_sound();
    if !graph.has(asn) {
        return false;
    }
    let row = graph.place_near(asn, 0);
    let neighbours = graph.neighbours_near(asn, row);
    let later = plan.rank(ranks, asn);
    let number = number_over(plan, ranks, neighbours, graph.neighbour_places(row));
    if number != u64::from(later) {
        return false;
    }
    let before = ranks.rank(asn);
    before == later || all_bear(plan, ranks, neighbours, before, later)
}

// Whether that holds at each AS that the plan numbers.
fn are_mended(graph: &Graph, plan: &RankPlan, ranks: &Ranks) -> bool
    ensures inside { result ≡ true → (a : ℕ) → is_numbered plan.now a ≡ true → has graph.now a ≡ true }
    ensures mended { result ≡ true → (a : ℕ) → is_numbered plan.now a ≡ true → MendsAt graph.now ranks.now plan.now a }
{
    for at in 0..plan.ases.len() {
        if !is_mended(graph, plan, ranks, plan.ases[at]) {
            return false;
        }
    }
    true
}

// Whether the plan numbers each of the ASes that is in the graph.
fn has_all(graph: &Graph, plan: &RankPlan, ends: &[Asn]) -> bool
    ensures { result ≡ true → (a : ℕ) → occurs a ends.now ≡ true → has graph.now a ≡ true →
        is_numbered plan.now a ≡ true }
{
    for at in 0..ends.len() {
        if graph.has(ends[at]) && !plan.is_numbered(ends[at]) {
            return false;
        }
    }
    true
}

/// Whether the plan numbers just ASes of the graph, those of the ends among them, its number fits at
/// each, and nothing above changes but what it numbers.
pub fn is_sound(graph: &Graph, plan: &RankPlan, ranks: &Ranks, ends: &[Asn]) -> bool
    ensures inside { result ≡ true → (a : ℕ) → is_numbered plan.now a ≡ true → has graph.now a ≡ true }
    ensures complete { result ≡ true → (a : ℕ) → occurs a ends.now ≡ true → has graph.now a ≡ true →
        is_numbered plan.now a ≡ true }
    ensures mended { result ≡ true → (a : ℕ) → is_numbered plan.now a ≡ true → MendsAt graph.now ranks.now plan.now a }
{
    has_all(graph, plan, ends) && are_mended(graph, plan, ranks)
}
