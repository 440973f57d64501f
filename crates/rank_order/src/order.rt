//! The ASes by rising rank.
ghost use Rattle.std.specs.Prelude.{◌≡◌, ℕ, ◌<◌, length, map, slice_index, IfOk};
ghost use Rattle.as_graph.specs.Prelude.{has, as_count};
ghost use Rattle.rank_order.specs.Ranks.{rank_at, IsRankOrder, IsSortedOut};
ghost use Rattle.rank_order.specs.Placed.{asns_of};

use crate::ranks::Ranks;
use as_graph::Graph;
use net_names::{Asn, NoMemory};
use std::alloc::{AllocError, Global};

/// The ASes of a graph by rising rank, and for each, at the same index, where its row was last found
/// in the graph. These places are hints: no contract says what they are.
#[derive(Drop)]
pub struct RankOrder {
    /// The ASes.
    pub ases: Vec<Asn>,
    /// The places.
    pub places: Vec<u32>,
}

// An AS, and where its row was found in the graph.
#[derive(Clone, Copy)]
pub(crate) struct Placed {
    pub(crate) asn: Asn,
    pub(crate) place: u32,
}

// The ASes of the graph, each with its place.
fn with_places(alloc: Global, graph: &Graph, ases: &[Asn]) -> Result<Vec<Placed>, AllocError>
    ensures { IfOk result (λ v. asns_of v.items ≡ ases.now) }
{
    let mut placed = Vec::with_capacity(alloc, ases.len())?;
    for (at, asn) in ases.iter().enumerate() {
        let place = u32::try_from(graph.place_near(*asn, at)).unwrap_or(0);
        placed.push(Placed { asn: *asn, place })?;
    }
    Ok(placed)
}

// The ASes without their places.
fn asns(alloc: Global, placed: &[Placed]) -> Result<Vec<Asn>, AllocError>
    ensures { IfOk result (λ v. v.items ≡ asns_of placed.now) }
{
    placed.iter().map(|one| one.asn).collect(alloc)
}

// The ASes by rising rank, each rank looked up once.
fn sorted(
    alloc: Global,
    graph: &Graph,
    ases: &[Asn],
    ranks: &Ranks,
) -> Result<RankOrder, AllocError>
    ensures { IfOk result (λ o. IsSortedOut (rank_at ranks.now) ases.now o.ases.items) }
{
    let mut order = with_places(alloc, graph, ases)?;
    order.sort_by_cached_key(|one| ranks.rank_near(one.asn, one.place as usize))?;
    Ok(RankOrder {
        ases: asns(alloc, &order)?,
        places: order.iter().map(|one| one.place).collect(alloc)?,
    })
}

// The ASes at these places among the ASes, each with the place of its row.
pub(crate) fn order_at(
    alloc: Global,
    graph: &Graph,
    ases: &[Asn],
    by_rank: &[u32],
) -> Result<RankOrder, AllocError>
    requires { (k : ℕ) → k < length by_rank.now → slice_index by_rank.now k < length ases.now }
    ensures { IfOk result (λ o. o.ases.items ≡ map (slice_index ases.now) by_rank.now) }
{
    let mut order = Vec::with_capacity(alloc, by_rank.len())?;
    let mut places = Vec::with_capacity(alloc, by_rank.len())?;
    for place in by_rank {
        let asn = ases[*place as usize];
        order.push(asn)?;
        places.push(u32::try_from(graph.place_near(asn, *place as usize)).unwrap_or(0))?;
    }
    Ok(RankOrder {
        ases: order,
        places,
    })
}

// A copy of an order.
fn copied(alloc: Global, order: &RankOrder) -> Result<RankOrder, AllocError>
    ensures { IfOk result (λ o. o.ases.items ≡ order.now.ases.items) }
{
    Ok(RankOrder {
        ases: Vec::from_slice(alloc, order.ases.as_slice())?,
        places: Vec::from_slice(alloc, order.places.as_slice())?,
    })
}

// The ASes of the graph by rising rank: a copy of the order that stands ready, if it is theirs.
fn ready_or_sorted(alloc: Global, graph: &Graph, ranks: &Ranks) -> Result<RankOrder, AllocError>
    ensures order { IfOk result (λ o. IsRankOrder (has graph.now) (rank_at ranks.now) o.ases.items) }
    ensures count { IfOk result (λ o. length o.ases.items ≡ as_count graph.now) }
{
    let ases = graph.ases();
    match ranks.order_over(ases) {
        Some(order) => Ok(copied(alloc, order)?),
        None => Ok(sorted(alloc, graph, ases, ranks)?),
    }
}

/// The ASes of the graph, each once, by rising rank, with a place for each. With the graph's own
/// ranks each AS comes behind all its customers. The only refusal is want of memory.
pub fn placed_by_rank(alloc: Global, graph: &Graph, ranks: &Ranks) -> Result<RankOrder, NoMemory>
    ensures order { IfOk result (λ o. IsRankOrder (has graph.now) (rank_at ranks.now) o.ases.items) }
    ensures count { IfOk result (λ o. length o.ases.items ≡ as_count graph.now) }
{
    Ok(ready_or_sorted(alloc, graph, ranks)?)
}

/// The ASes of the graph, each once, by rising rank. With the graph's own ranks each AS comes behind
/// all its customers. The only refusal is want of memory.
pub fn by_rank(alloc: Global, graph: &Graph, ranks: &Ranks) -> Result<Vec<Asn>, NoMemory>
    ensures order { IfOk result (λ v. IsRankOrder (has graph.now) (rank_at ranks.now) v.items) }
    ensures count { IfOk result (λ v. length v.items ≡ as_count graph.now) }
{
    Ok(placed_by_rank(alloc, graph, ranks)?.ases)
}
