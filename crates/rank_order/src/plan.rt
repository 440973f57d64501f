//! Plans: what ranks become with a graph that was edited.
ghost use Rattle.std.specs.Prelude.{◌≡◌, ℕ, length, None, Some, if◌then◌else◌};
ghost use Rattle.std.specs.List.Sorted.{IsStrictlyIncreasing};
ghost use Rattle.net_names.specs.Prelude.{occurs};
ghost use Rattle.cycle_check.specs.Prelude.{rank_by};

use crate::ranks::{Ranks, rank_of};
use cycle_check::place_in;
use net_names::Asn;
use std::alloc::Global;

/// What ranks become with a graph that was edited: new ranks of some ASes, and which ASes come and
/// go. Beside the ranks that it was made of, contracts see the map from each AS of the new graph to
/// its rank.
#[derive(Drop)]
pub struct RankPlan {
    // the ASes that have new ranks, in rising number
    pub(crate) ases: Vec<Asn>,
    // their ranks
    pub(crate) ranks: Vec<u32>,
    // the ASes whose links changed: those without a new rank are not in the new graph
    pub(crate) ends: Vec<Asn>,
    ghost each: { length ranks.items ≡ length ases.items },
    ghost rising: { IsStrictlyIncreasing ases.items },
}

impl RankPlan {
    ghost use Rattle.rank_order.specs.Plans.{IsLastPlan, is_numbered, rank_after};
    ghost use Rattle.rank_order.specs.Ranks.{KeptRanks, rank_at};

    /// The plan that changes nothing, for any ranks. It takes no memory.
    pub fn none(alloc: Global) -> RankPlan
        ensures last { (r : KeptRanks) → IsLastPlan r result }
        ensures same { (r : KeptRanks) (a : ℕ) → rank_after r result a ≡ rank_at r a }
    {
        RankPlan {
            ases: Vec::new(alloc),
            ranks: Vec::new(alloc),
            ends: Vec::new(alloc),
        }
    }

    // The rank that the plan gives to an AS by itself, if it gives one.
    fn new_rank(&self, asn: Asn) -> Option<u32>
        ensures { result ≡ (if is_numbered self.now asn
            then Some (rank_by self.now.ases.items self.now.ranks.items asn)
            else if occurs asn self.now.ends.items then Some 0 else None) }
    {
        let place = place_in(&self.ases, asn);
        if place < self.ases.len() {
            return Some(rank_of(&self.ranks, place));
        }
        if self.ends.contains(&asn) {
            Some(0)
        } else {
            None
        }
    }

    // Whether the plan has a new rank for an AS.
    pub(crate) fn is_numbered(&self, asn: Asn) -> bool
        ensures { result ≡ is_numbered self.now asn }
    {
        place_in(&self.ases, asn) < self.ases.len()
    }

    /// The rank of an AS in the new graph, 0 for one that is not there. The ranks are those of which
    /// the plan was made. Takes no memory.
    pub fn rank(&self, ranks: &Ranks, asn: Asn) -> u32
        ensures { result ≡ rank_after ranks.now self.now asn }
    {
        match self.new_rank(asn) {
            Some(rank) => rank,
            None => ranks.rank(asn),
        }
    }

    /// The rank of an AS in the new graph, as `rank` gives it, sought first at a place, which is a hint.
    pub fn rank_near(&self, ranks: &Ranks, asn: Asn, place: usize) -> u32
        ensures { result ≡ rank_after ranks.now self.now asn }
    {
        match self.new_rank(asn) {
            Some(rank) => rank,
            None => ranks.rank_near(asn, place),
        }
    }
}
