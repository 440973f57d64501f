//! Watches that are taken to an edited world: room first, and then the change without memory.
ghost use Rattle.std.specs.Prelude.{◌≡◌, ℕ, suc, ◌<◌, ◌≤◌, Some, OnOk, length, map};
ghost use Rattle.leak_round.specs.Prelude.{ases_told, kept as kept_rounds, plan_of, round_count};
ghost use Rattle.sim_core.specs.Renewing.{AreRoomy, AreRoundsRoomy, CanFollow, CanAllFollow};
ghost use Rattle.sim_core.specs.Watching.{AreRoundWatches, AreWatches, GoesOnInside, addrs_in, seen_in};
ghost use Rattle.leak_round.specs.declared.limits.TheConstants.{MOST_ROUNDS};

use crate::watching::RoundWatches;
use as_graph::Graph;
use data_trace::Differing;
use leak_round::{Rounds, RoundsDone};
use net_names::{Asn, NoMemory};
use policy_kinds::Kind;
use stability_laws::Book;
use std::alloc::Global;

// Makes room in the watches of a round for all ASes of the graph.
fn make_room_in(graph: &Graph, one: &mut RoundWatches) -> Result<(), NoMemory>
    ensures seen { seen_in one.new ≡ seen_in one.old }
    ensures roomy { OnOk result (AreRoomy graph.now one.new) }
{
    for place in 0..one.watches.len() {
        one.watches[place].room(graph)?;
    }
    Ok(())
}

/// Makes room in all watches for all ASes of the graph. What is seen of them stays.
pub fn make_room(graph: &Graph, all: &mut Vec<RoundWatches>) -> Result<(), NoMemory>
    ensures seen { map seen_in all.new.items ≡ map seen_in all.old.items }
    ensures roomy { OnOk result (AreRoundsRoomy graph.now all.new.items) }
{
    for place in 0..all.len() {
        make_room_in(graph, &mut all[place])?;
    }
    Ok(())
}

// Takes the watches of a round to other tables, seeds and policies.
fn renew_in(
    graph: &Graph,
    rounds: &Rounds,
    book: &Book<Kind>,
    round: u32,
    changed: &[Asn],
    ends: &[Asn],
    one: &mut RoundWatches,
)
    requires from { 1 ≤ round }
    requires to { round ≤ round_count rounds.now }
    requires inside { GoesOnInside graph.now (plan_of rounds.now) (kept_rounds rounds.now round) }
    requires roomy { AreRoomy graph.now one.old }
    requires follow { CanFollow graph.now (plan_of rounds.now) (kept_rounds rounds.now round) book.now
        changed.now ends.now (seen_in one.old) }
    ensures rows { AreWatches graph.now (plan_of rounds.now) (kept_rounds rounds.now round) book.now (seen_in one.new) }
    ensures addrs { addrs_in one.new ≡ addrs_in one.old }
{
    let Some(tables) = rounds.round(round) else {
        unreachable!();
    };
    let (pool, plan) = (rounds.pool(), rounds.seed_plan());
    let differing = Differing {
        hops: changed,
        groups: ends,
    };
    for place in 0..one.watches.len() {
        one.watches[place].update(graph, tables, pool, plan, book, &differing);
    }
}

/// Takes the watches of all rounds to other tables, seeds and policies, where these entries changed. It
/// takes no memory.
pub fn renew(
    graph: &Graph,
    rounds: &Rounds,
    book: &Book<Kind>,
    done: &RoundsDone,
    ends: &[Asn],
    all: &mut Vec<RoundWatches>,
)
    requires count { length all.old.items ≡ round_count rounds.now }
    requires inside { (before : ℕ) → before < round_count rounds.now →
        GoesOnInside graph.now (plan_of rounds.now) (kept_rounds rounds.now (suc before)) }
    requires roomy { AreRoundsRoomy graph.now all.old.items }
    requires few { round_count rounds.now ≤ MOST_ROUNDS }
    requires follow { CanAllFollow graph.now (plan_of rounds.now) (kept_rounds rounds.now) book.now
        (ases_told done.now) ends.now (map seen_in all.old.items) }
    ensures rows { AreRoundWatches graph.now (plan_of rounds.now) (kept_rounds rounds.now) book.now
        (round_count rounds.now) (map seen_in all.new.items) }
    ensures addrs { map addrs_in all.new.items ≡ map addrs_in all.old.items }
{
    for place in 0..all.len() {
        let round = place as u32 + 1;
        renew_in(
            graph,
            rounds,
            book,
            round,
            done.changed_in(round),
            ends,
            &mut all[place],
        );
    }
}
