//! The ranks of a graph's ASes, or a provider cycle.
ghost use Rattle.std.specs.Prelude.{◌≡◌, ◌↔◌, ◌<◌, length, IfOk, IfSome, IsNone};
ghost use Rattle.as_graph.specs.Prelude.{relation, HasNoProviderCycle};
ghost use Rattle.cycle_check.specs.Cycles.{IsCycleFromLowest};
ghost use Rattle.cycle_check.specs.Rankings.{IsRanking, numbers_of, ranks_of};

use crate::counting::{Counted, count_ranks};
use crate::cycle::{Cycle, cycle_at};
use crate::provider_rows::provider_rows;
use as_graph::{Graph, fitting_are_ranks};
use net_names::{Asn, NoMemory};
use std::alloc::Global;

/// An AS and its rank.
#[derive(Clone, Copy, Debug, PartialEq, Eq)]
pub struct RankedAs {
    pub asn: Asn,
    pub rank: u32,
}

/// The ASes of a graph with their ranks.
#[derive(Drop)]
pub struct Ranked {
    /// The ASes in rising number, each with its rank.
    pub ases: Vec<RankedAs>,
    /// Their places in this list, by rising rank.
    pub order: Vec<u32>,
}

/// What counting finds.
#[derive(Drop)]
pub enum Ranking {
    /// There is no provider cycle.
    Ranks(Ranked),
    /// A provider cycle, from its lowest number on.
    Cycle(Cycle),
}

// The ASes, each with the rank at its place.
fn with_ranks(alloc: Global, ases: &[Asn], ranks: &[u32]) -> Result<Vec<RankedAs>, NoMemory>
    requires { length ranks.now ≡ length ases.now }
    ensures asns { IfOk result (λ v. numbers_of v.items ≡ ases.now) }
    ensures ranks { IfOk result (λ v. ranks_of v.items ≡ ranks.now) }
{
    let mut ranked = Vec::with_capacity(alloc, ases.len())?;
    for place in 0..ases.len() {
        ranked.push(RankedAs {
            asn: ases[place],
            rank: ranks[place],
        })?;
    }
    Ok(ranked)
}

/// The rank of each AS (the number of provider links on the longest way down from it) and the order
/// by rank, or a provider cycle where the graph has one.
///
/// The only refusal is want of memory. The time is bounded by the ASes and links.
pub fn rank_ases(alloc: Global, graph: &Graph) -> Result<Ranking, NoMemory>
    ensures { IfOk result (IsRanking graph.now) }
{
    fitting_are_ranks();
    let ases = graph.ases();
    // `as_count` is called for its clause that the ASes are few.
    let _count = graph.as_count();
    let rows = provider_rows(alloc, graph, ases)?;
    let found = count_ranks(alloc, &rows.starts, &rows.items)?;
    match found {
        Counted::Ranks { ranks, order } => Ok(Ranking::Ranks(Ranked {
            ases: with_ranks(alloc, ases, &ranks)?,
            order,
        })),
        Counted::Cycle(places) => Ok(Ranking::Cycle(cycle_at(alloc, ases, &places)?)),
    }
}

/// A provider cycle of the graph, from its lowest number on, or none exactly where the graph has
/// none (Gao and Rexford 2001: no AS is its own direct or indirect provider).
///
/// Which cycle is given is free where there are several. The only refusal is want of memory.
pub fn find_cycle(alloc: Global, graph: &Graph) -> Result<Option<Cycle>, NoMemory>
    ensures cycle { IfOk result (λ found. IfSome found (IsCycleFromLowest (relation graph.now))) }
    ensures none { IfOk result (λ found. IsNone found ↔ HasNoProviderCycle (relation graph.now)) }
{
    match rank_ases(alloc, graph)? {
        Ranking::Ranks(_) => Ok(None),
        Ranking::Cycle(cycle) => Ok(Some(cycle)),
    }
}
