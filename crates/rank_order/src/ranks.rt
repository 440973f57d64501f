//! The ranks by number.
ghost use Rattle.std.specs.Prelude.{◌≡◌, ◌<◌, ◌≤◌, ◌+◌, ◌==◌, if◌then◌else◌, ℕ, None, Some, true, false, length, map, is_some, slice_index, IfOk, IfErr, IfSome, OnOk};
ghost use Rattle.std.proofs.Props.{props};
ghost use Rattle.std.specs.List.Sorted.{IsStrictlyIncreasing};
ghost use Rattle.std.specs.FinMap as map;
ghost use Rattle.net_names.specs.Prelude.{occurs};
ghost use Rattle.as_graph.specs.Prelude.{relation, has, HasNoProviderCycle, IsRank};
ghost use Rattle.cycle_check.specs.Prelude.{ArePlacesByRank, rank_by, numbers_of, ranks_of, rank_told};
ghost use Rattle.rank_order.specs.Ranks.{rank_at, IsRankOrder, IsRankRefusal};
ghost use Rattle.rank_order.specs.declared.ranks.RankError.TheVariants.{Memory};

use crate::list::{put_in, take_in};
use crate::order::{RankOrder, order_at};
use as_graph::Graph;
use cycle_check::{Cycle, RankedAs, Ranking, place_near, places_of_rows, rank_ases};
use net_names::{Asn, NoMemory};
use std::alloc::{AllocError, Global};
use std::marker::Model;

/// Why a graph gets no ranks.
#[derive(Drop)]
pub enum RankError {
    /// There is not enough memory.
    Memory,
    /// The graph has a provider cycle: this one, from its lowest number on.
    ProviderCycle(Cycle),
}

impl From<NoMemory> for RankError {
    ghost from_gives = { λ _ e. e ≡ Memory };

    fn from(_e: NoMemory) -> RankError {
        RankError::Memory
    }
}

/// A rank for each AS of a graph, and the ASes by rising rank. Contracts see the finite map from the
/// AS to its rank, and for how many more ASes there is room without memory.
#[derive(Drop)]
pub struct Ranks {
    ases: Vec<Asn>,
    ranks: Vec<u32>,
    order: RankOrder,
    // whether the order is that of the ranks: none has changed since it was made
    in_order: bool,
    // for each row of the graph, the place of its AS: these are hints
    places: Vec<u32>,
    ghost each: { length ranks.items ≡ length ases.items },
    ghost rising: { IsStrictlyIncreasing ases.items },
    ghost by_rank: { in_order ≡ true → IsRankOrder (λ a. occurs a ases.items) (rank_by ases.items ranks.items) order.ases.items } by { Prim.hlevel props },
}

impl Model for Ranks {
    ghost use Rattle.rank_order.specs.Ranks.{KeptRanks, kept_ranks_code, rank_map};
    ghost use Rattle.rank_order.specs.Lists.{spare_in};

    ghost Value = { KeptRanks };

    ghost coded = { kept_ranks_code };

    ghost view = { λ r. record { by_as = rank_map r.ases.items r.ranks.items; spare = spare_in r.ases r.ranks } };
}

impl Ranks {
    /// The ranks of a graph's ASes: 0 without customers, else one more than the greatest rank of the
    /// customers, which is the number of provider links on the longest way down.
    ///
    /// `ProviderCycle` comes exactly where the graph has a provider cycle (Gao and Rexford 2001), and
    /// carries one from its lowest number on; `Memory` where memory runs out.
    pub fn build(alloc: Global, graph: &Graph) -> Result<Ranks, RankError>
        ensures ranks { IfOk result (λ r. (a : ℕ) → IsRank (relation graph.now) a (rank_at r a)) }
        ensures ases { IfOk result (λ r. (a : ℕ) → is_some (map.get r.by_as a) ≡ has graph.now a) }
        ensures no_cycle { OnOk result (HasNoProviderCycle (relation graph.now)) }
        ensures cycle { IfErr result (IsRankRefusal (relation graph.now)) }
    {
        match rank_ases(alloc, graph)? {
            Ranking::Ranks(ranked) => {
                Ok(Ranks::keep(alloc, graph, &ranked.ases, &ranked.order)?)
            }
            Ranking::Cycle(cycle) => Err(RankError::ProviderCycle(cycle)),
        }
    }

    // The ranks of the list, and the order by its places.
    fn keep(
        alloc: Global,
        graph: &Graph,
        ranked: &[RankedAs],
        by_rank: &[u32],
    ) -> Result<Ranks, NoMemory>
        requires rising { IsStrictlyIncreasing (numbers_of ranked.now) }
        requires by_rank { ArePlacesByRank (length ranked.now) (ranks_of ranked.now) by_rank.now }
        ensures told { IfOk result (λ r. (a : ℕ) → map.get r.by_as a ≡ rank_told ranked.now a) }
    {
        let ases = numbers(alloc, ranked)?;
        let ranks = ranks_in(alloc, ranked)?;
        let order = order_at(alloc, graph, &ases, by_rank)?;
        let places = places_of_rows(alloc, graph, &ases)?;
        Ok(Ranks {
            ases,
            ranks,
            order,
            in_order: true,
            places,
        })
    }

    /// The rank of an AS, 0 for one that is not there.
    pub fn rank(&self, asn: Asn) -> u32
        ensures { result ≡ rank_at self.now asn }
    {
        self.rank_near(asn, self.places.len())
    }

    /// The rank of an AS, as `rank` gives it, sought first at a place, which is a hint.
    pub fn rank_near(&self, asn: Asn, place: usize) -> u32
        ensures { result ≡ rank_at self.now asn }
    {
        let near = match self.places.get(place) {
            Some(near) => *near as usize,
            None => 0,
        };
        rank_of(&self.ranks, place_near(&self.ases, asn, near))
    }

    // The order of these ASes by rising rank, if they are just those that have a rank, in rising
    // number, and none has changed since the order was made.
    pub(crate) fn order_over(&self, ases: &[Asn]) -> Option<&RankOrder>
        ensures order { IfSome result (λ o.
            IsRankOrder (λ a. occurs a ases.now) (rank_at self.now) o.now.ases.items) }
    {
        if self.in_order && self.ases.as_slice() == ases {
            Some(&self.order)
        } else {
            None
        }
    }

    // Gives an AS a rank. One that has none takes up room, of which there is enough.
    pub(crate) fn put(&mut self, asn: Asn, rank: u32)
        requires { is_some (map.get self.old.by_as asn) ≡ false → 0 < self.old.spare }
        ensures entries { (a : ℕ) → map.get self.new.by_as a ≡
            (if asn == a then Some rank else map.get self.old.by_as a) }
        ensures spare { self.old.spare ≤ self.new.spare + 1 }
        ensures kept { is_some (map.get self.old.by_as asn) ≡ true → self.old.spare ≤ self.new.spare }
    {
        self.in_order = false;
        put_in(&mut self.ases, &mut self.ranks, asn, rank);
    }

    // Takes an AS out, if it is there.
    pub(crate) fn take(&mut self, asn: Asn)
        ensures { (a : ℕ) → map.get self.new.by_as a ≡ (if asn == a then None else map.get self.old.by_as a) }
    {
        self.in_order = false;
        take_in(&mut self.ases, &mut self.ranks, asn);
    }

    // Makes room for so many more ASes.
    pub(crate) fn make_room(&mut self, count: usize) -> Result<(), AllocError>
        ensures same { self.new.by_as ≡ self.old.by_as }
        ensures room { OnOk result (count ≤ self.new.spare) }
    {
        self.ases.reserve(count)?;
        self.ranks.reserve(count)?;
        Ok(())
    }
}

// The numbers of the ASes.
pub(crate) fn numbers(alloc: Global, ranked: &[RankedAs]) -> Result<Vec<Asn>, AllocError>
    ensures { IfOk result (λ v. v.items ≡ numbers_of ranked.now) }
{
    ranked.iter().map(|one| one.asn).collect(alloc)
}

// The ranks of the ASes.
pub(crate) fn ranks_in(alloc: Global, ranked: &[RankedAs]) -> Result<Vec<u32>, AllocError>
    ensures { IfOk result (λ v. v.items ≡ ranks_of ranked.now) }
{
    ranked.iter().map(|one| one.rank).collect(alloc)
}

// The rank at a place, 0 past the end.
pub(crate) fn rank_of(ranks: &[u32], place: usize) -> u32
    ensures { result ≡ slice_index ranks.now place }
{
    if place < ranks.len() { ranks[place] } else { 0 }
}
