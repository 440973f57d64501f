//! The watched addresses, and for each round a watch for each of them.
ghost use Rattle.std.specs.Prelude.{◌≡◌, ◌≢◌, ◌≤◌, [], IfOk, map, position};
ghost use Rattle.std.specs.List.{AllPairs};
ghost use Rattle.std.specs.Ordering.{eq_by_cmp};
ghost use Rattle.as_graph.specs.Prelude.{Topology};
ghost use Rattle.data_trace.specs.Prelude.{IsIndexOf};
ghost use Rattle.leak_round.specs.Prelude.{kept as kept_rounds, plan_of, round_count};
ghost use Rattle.roa_table.specs.Prelude.{Payloads};
ghost use Rattle.policy_kinds.specs.Prelude.{kind_policy, label};
ghost use Rattle.origin_validation.specs.Prelude.{state_of};
ghost use Rattle.policy_kinds.specs.declared.kind.Kind.{Kind as AKind};
ghost use Rattle.stability_laws.specs.Prelude.{PolicyBook, policy_at, AreRounds, setting};
ghost use Rattle.sim_core.specs.Watching.{AreRoundWatches, AreWatches, GoesOnAmong, HasWatches, IsPlaceOrNone, addrs_in, seen_in};

use as_graph::Graph;
use data_trace::{Watch, WatchIndex};
use leak_round::Rounds;
use net_names::{Addr, NoMemory};
use policy_kinds::Kind;
use scenario_text::Scenario;
use stability_laws::{Book, paths_go_on, plans_are_sound};
use std::alloc::{AllocError, Global};

/// The watches of a round, one for each watched address in their order.
#[derive(Drop)]
pub struct RoundWatches {
    pub watches: Vec<Watch>,
}

/// The addresses that a scenario watches, in its order.
pub fn watched_addrs(alloc: Global, scenario: &Scenario) -> Result<Vec<Addr>, AllocError>
    ensures value { IfOk result (λ v. v.items ≡ scenario.now.watch) }
    ensures once { AllPairs (λ a b. a ≢ b) scenario.now.watch }
{
    scenario.watched().iter().copied().collect(alloc)
}

// The place of a key in a list, if it stands there.
fn place_of<K: Ord>(keys: &[K], key: &K) -> Option<usize>
    ensures { result ≡ position (λ k. eq_by_cmp K.cmp key.now k) keys.now }
{
    keys.iter().position(|k| key.cmp(k).is_eq())
}

/// The place of an address in a list, if it stands there.
pub fn place_of_addr(addrs: &[Addr], addr: Addr) -> Option<usize>
    ensures { IsPlaceOrNone addrs.now addr result }
{
    place_of(addrs, &addr)
}

// The watches of a round, over the graph and the book of the index.
fn watch_round(
    alloc: Global,
    index: &WatchIndex,
    rounds: &Rounds,
    addrs: &[Addr],
    round: u32,
) -> Result<RoundWatches, NoMemory>
    requires from { 1 ≤ round }
    requires to { round ≤ round_count rounds.now }
    requires inside { GoesOnAmong index.now (plan_of rounds.now) (kept_rounds rounds.now round) }
    ensures rows { IfOk result (λ one. (g : Topology) (book : PolicyBook AKind) →
        IsIndexOf g (λ a. label (policy_at book a)) index.now →
        AreWatches g (plan_of rounds.now) (kept_rounds rounds.now round) book (seen_in one)) }
    ensures addrs { IfOk result (λ one. addrs_in one ≡ addrs.now) }
{
    let Some(tables) = rounds.round(round) else {
        unreachable!();
    };
    let (pool, plan) = (rounds.pool(), rounds.seed_plan());
    let mut watches = Vec::new(alloc);
    for addr in addrs {
        let watch = Watch::by_index(alloc, index, tables, pool, plan, *addr)?;
        watches.push(watch)?;
    }
    Ok(RoundWatches { watches })
}

// No watch in each of so many rounds.
fn watch_none(alloc: Global, count: u32) -> Result<Vec<RoundWatches>, NoMemory>
    ensures { IfOk result (λ all. HasWatches count [] all.items) }
{
    let mut all = Vec::new(alloc);
    for _past in 0..count {
        let watches = Vec::new(alloc);
        all.push(RoundWatches { watches })?;
    }
    Ok(all)
}

/// The watches of all rounds, of which there are so many, for these addresses.
pub fn watch_rounds(
    alloc: Global,
    graph: &Graph,
    rounds: &Rounds,
    book: &Book<Kind>,
    addrs: &[Addr],
    count: u32,
) -> Result<Vec<RoundWatches>, NoMemory>
    requires count { count ≡ round_count rounds.now }
    requires stable { (payloads : Payloads) ×
        AreRounds (λ p. setting kind_policy graph.now book.now (state_of payloads p))
        (plan_of rounds.now) (round_count rounds.now) (kept_rounds rounds.now) }
    ensures rows { IfOk result (λ all. AreRoundWatches graph.now (plan_of rounds.now) (kept_rounds rounds.now) book.now
        (round_count rounds.now) (map seen_in all.items)) }
    ensures addrs { IfOk result (λ all. HasWatches (round_count rounds.now) addrs.now all.items) }
{
    if addrs.is_empty() {
        return watch_none(alloc, count);
    }
    paths_go_on::<Kind>();
    plans_are_sound(rounds.seed_plan());
    let index = WatchIndex::of(alloc, graph, book)?;
    let mut all = Vec::new(alloc);
    for past in 0..count {
        let one = watch_round(alloc, &index, rounds, addrs, past + 1)?;
        all.push(one)?;
    }
    Ok(all)
}
