//! From a set of ASes to spots, and back.

ghost use Rattle.std.specs.Prelude.{◌≡◌, ℕ, Some, IsTrue, IfOk, OnOk, ◌||◌, List, option_map};
ghost use Rattle.std.specs.List.{list_any};
ghost use Rattle.std.specs.BTreeMap.{is_at};
ghost use Rattle.dirty_recompute.specs.declared.spot.Spot.{Spot as ASpot};
ghost use Rattle.dirty_recompute.specs.declared.spots.Spots.{Spots as TheSpots};
ghost use Rattle.dirty_recompute.specs.Fews.{few_has};
ghost use Rattle.dirty_recompute.specs.PlannedRanks.{rank_of};
ghost use Rattle.dirty_recompute.specs.Spots.{key_cmp, spots_have, AreRanked, AreSpotsOf, NoneWaits};

use crate::few::Few;
use crate::planned_ranks::PlannedRanks;
use crate::spot::Spot;
use crate::spots::Spots;
use as_graph::Graph;
use net_names::{Asn, NoMemory};
use rank_order::placed_by_rank;
use std::alloc::Global;

/// The row at a place, or the first one.
pub(crate) fn row_at(rows: &[u32], at: usize) -> u32 {
    match rows.get(at) {
        Some(row) => *row,
        None => 0,
    }
}

// A spot for each of the ASes, where their ranks do not fall. Nobody waits.
fn spots_over(
    alloc: Global,
    ranks: &PlannedRanks,
    ases: &[Asn],
    rows: &[u32],
) -> Result<Option<Vec<Spot>>, NoMemory>
    ensures { IfOk result (λ o. (v : List ASpot) → option_map (λ x. x.items) o ≡ Some v →
        AreSpotsOf (rank_of ranks.now) ases.now v) }
{
    let mut spots = Vec::with_capacity(alloc, ases.len())?;
    let mut last = 0;
    for (at, asn) in ases.iter().enumerate() {
        let row = row_at(rows, at);
        let rank = ranks.rank_near(*asn, row as usize);
        if rank < last {
            return Ok(None);
        }
        last = rank;
        spots.push(Spot {
            asn: *asn,
            rank,
            row,
            waits: false,
        })?;
    }
    Ok(Some(spots))
}

// For each of so many rows of the graph, where its AS stands among the spots.
fn places_by_row(alloc: Global, count: usize, spots: &[Spot]) -> Result<Vec<u32>, NoMemory> {
    let mut places = Vec::from_elem(alloc, 0u32, count)?;
    for (place, spot) in spots.iter().enumerate() {
        if let Some(kept) = places.get_mut(spot.row as usize) {
            *kept = u32::try_from(place).unwrap_or(0);
        }
    }
    Ok(places)
}

/// A spot for each AS of the graph. Nobody waits. There are none where the order that stands ready is not
/// that of the planned ranks.
pub(crate) fn spots_of(
    alloc: Global,
    graph: &Graph,
    ranks: &PlannedRanks,
) -> Result<Option<Spots>, NoMemory>
    ensures ranked { IfOk result (λ o. (s : TheSpots) → o ≡ Some s → AreRanked (rank_of ranks.now) s.items.items) }
    ensures none { IfOk result (λ o. (s : TheSpots) → o ≡ Some s → NoneWaits s.items.items) }
{
    let order = placed_by_rank(alloc, graph, ranks.ranks)?;
    match spots_over(alloc, ranks, order.ases.as_slice(), order.places.as_slice())? {
        Some(items) => {
            let by_row = places_by_row(alloc, graph.rows().len(), items.as_slice())?;
            let low = items.len();
            Ok(Some(Spots {
                items,
                by_row,
                low,
                high: 0,
            }))
        }
        None => Ok(None),
    }
}

/// The ASes of the pairs wait from now on. Answers whether each has a spot, under that rank.
pub(crate) fn fill(spots: &mut Spots, graph: &Graph, keys: &[(u32, Asn)]) -> bool
    requires { NoneWaits spots.old.items.items }
    ensures ranked { (rank : ℕ → ℕ) → AreRanked rank spots.old.items.items → AreRanked rank spots.new.items.items }
    ensures all { IsTrue result → (rank : ℕ → ℕ) → AreRanked rank spots.old.items.items → (k : ℕ × ℕ) →
        spots_have rank spots.new.items.items k ≡ list_any (is_at (key_cmp k)) keys.now }
{
    for key in keys {
        let (rank, asn) = *key;
        let Some(at) = spots.find_near(graph, asn, 0) else {
            return false;
        };
        if spots.items[at].rank != rank {
            return false;
        }
        spots.mark(at, true);
    }
    true
}

/// Puts those who wait into the set.
pub(crate) fn put_waiting(
    few: &mut Few,
    ranks: &PlannedRanks,
    spots: &[Spot],
) -> Result<(), NoMemory>
    ensures { OnOk result ((k : ℕ × ℕ) → few_has (rank_of ranks.now) few.new k ≡
        (spots_have (rank_of ranks.now) spots.now k || few_has (rank_of ranks.now) few.old k)) }
{
    for spot in spots {
        if spot.waits {
            few.put(ranks, spot.asn)?;
        }
    }
    Ok(())
}
