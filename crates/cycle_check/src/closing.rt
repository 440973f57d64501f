//! Whether a new provider link closes a cycle: a search from both ends of the link, by turns.
ghost use Rattle.std.specs.Prelude.{◌≡◌, ◌≢◌, ◌↔◌, ◌<◌, ◌≤◌, ◌⊎◌, ◌+◌, true, false, nat_eq, length, IfOk, IfSome, IfNone, IsNone, OnOk};
ghost use Rattle.indexmap.specs.IndexMap.{IsUnique};
ghost use Rattle.as_graph.specs.Prelude.{HasNoProviderCycle};
ghost use Rattle.cycle_check.specs.Cycles.{IsClosedBy, with_provider, without_pair};
ghost use Rattle.cycle_check.specs.Searches.{start_of, AreFromEarlier, ClosesMet, ClosesWay, IsRunning};

use crate::cycle::{Cycle, cycle_of};
use crate::search::{Pair, Search};
use as_graph::Graph;
use net_names::{Asn, NoMemory};
use std::alloc::Global;

// The cycle of a way from the customer to the provider.
fn closed(mut way: Vec<Asn>, pair: &Pair) -> Result<Cycle, NoMemory>
    ensures { IfOk result (ClosesWay pair.now.provider pair.now.customer way.items) }
{
    let _provider = way.pop();
    way.insert(0, pair.provider)?;
    Ok(cycle_of(way))
}

// The cycle of a search that has met the other AS of the pair, at a place.
fn met(search: &Search, pair: &Pair, at: usize) -> Result<Cycle, NoMemory>
    requires unique { IsUnique nat_eq search.now.reached }
    requires earlier { AreFromEarlier search.now.reached.entries }
    requires inside { at < length search.now.reached.entries }
    ensures { IfOk result
        (ClosesMet pair.now.provider pair.now.customer search.now.up search.now.reached.entries at) }
{
    if search.up {
        return closed(search.way_back(at, pair.provider)?, pair);
    }
    let mut way = search.way_back(at, pair.customer)?;
    way.reverse();
    closed(way, pair)
}

// Goes on with a search from one AS. Gives the cycle, if the search meets the other AS of the pair.
fn turn(
    search: &mut Search,
    graph: &Graph,
    pair: &Pair,
    start: Asn,
    other: Asn,
) -> Result<Option<Cycle>, NoMemory>
    requires differ { pair.now.provider ≢ pair.now.customer }
    requires running { IsRunning graph.now pair.now.provider pair.now.customer search.old.up search.old }
    requires more { search.old.done < length search.old.reached.entries }
    requires start { start ≡ start_of search.old.up pair.now.provider pair.now.customer }
    requires other { other ≡ start_of search.old.up pair.now.customer pair.now.provider }
    ensures cycle { IfOk result (λ found. IfSome found (IsClosedBy graph.now pair.now.provider pair.now.customer)) }
    ensures running { IfOk result (λ found. IfNone found
        (IsRunning graph.now pair.now.provider pair.now.customer search.old.up search.new)) }
    ensures done { OnOk result (search.new.done ≡ search.old.done + 1) }
{
    search.step(graph, pair, start)?;
    match search.place(other) {
        Some(at) => Ok(Some(met(search, pair, at)?)),
        None => Ok(None),
    }
}

// Goes on with the search that will have looked at fewer neighbours.
fn cheaper_turn(
    up: &mut Search,
    down: &mut Search,
    graph: &Graph,
    pair: &Pair,
) -> Result<Option<Cycle>, NoMemory>
    requires differ { pair.now.provider ≢ pair.now.customer }
    requires up { IsRunning graph.now pair.now.provider pair.now.customer true up.old }
    requires down { IsRunning graph.now pair.now.provider pair.now.customer false down.old }
    requires up_open { up.old.done < length up.old.reached.entries }
    requires down_open { down.old.done < length down.old.reached.entries }
    ensures cycle { IfOk result (λ found. IfSome found (IsClosedBy graph.now pair.now.provider pair.now.customer)) }
    ensures up { IfOk result (λ found. IfNone found
        (IsRunning graph.now pair.now.provider pair.now.customer true up.new)) }
    ensures down { IfOk result (λ found. IfNone found
        (IsRunning graph.now pair.now.provider pair.now.customer false down.new)) }
    ensures done { OnOk result (up.new.done + down.new.done ≡ up.old.done + down.old.done + 1) }
{
    if up.next_cost(graph) <= down.next_cost(graph) {
        turn(up, graph, pair, pair.provider, pair.customer)
    } else {
        turn(down, graph, pair, pair.customer, pair.provider)
    }
}

// Whether both searches can go on.
fn are_open(up: &Search, down: &Search) -> bool
    ensures up { result ≡ true → up.now.done < length up.now.reached.entries }
    ensures down { result ≡ true → down.now.done < length down.now.reached.entries }
    ensures ended { result ≡ false →
        (length up.now.reached.entries ≤ up.now.done) ⊎ (length down.now.reached.entries ≤ down.now.done) }
{
    if up.is_open() { down.is_open() } else { false }
}

/// Whether the ASes would be on a provider cycle with a provider link between them: the cycle that it
/// closes, from the provider to the customer and on; `None` exactly where there is none.
///
/// The graph is as it is before: a link that the pair has is passed over. Without it the graph has no
/// provider cycle. One search goes up from the provider, another down from the customer, by turns, so
/// that the time is bounded by twice the links that the one with fewer of them meets. The only refusal
/// is want of memory (Gao and Rexford 2001, the hierarchy assumption).
pub fn closes(
    alloc: Global,
    graph: &Graph,
    provider: Asn,
    customer: Asn,
) -> Result<Option<Cycle>, NoMemory>
    requires differ { provider ≢ customer }
    requires without { HasNoProviderCycle (without_pair graph.now provider customer) }
    ensures cycle { IfOk result (λ found. IfSome found (IsClosedBy graph.now provider customer)) }
    ensures none { IfOk result (λ found.
        IsNone found ↔ HasNoProviderCycle (with_provider graph.now provider customer)) }
{
    let pair = Pair { provider, customer };
    let mut up = Search::new(alloc, true, provider)?;
    let mut down = Search::new(alloc, false, customer)?;
    while are_open(&up, &down) {
        let found = cheaper_turn(&mut up, &mut down, graph, &pair)?;
        if found.is_some() {
            return Ok(found);
        }
    }
    Ok(None)
}
