//! The ranks after an edit.

ghost use Rattle.std.specs.Prelude.{◌≡◌};
ghost use Rattle.dirty_recompute.specs.PlannedRanks.{rank_of};

use net_names::Asn;
use rank_order::{RankPlan, Ranks};

/// The ranks that a graph has after an edit.
#[derive(Clone, Copy)]
pub struct PlannedRanks<'a> {
    /// The ranks before it.
    pub ranks: &'a Ranks,
    /// What they become.
    pub plan: &'a RankPlan,
}

impl<'a> PlannedRanks<'a> {
    /// The rank of an AS.
    #[tactic(auto, unfolding(crate::specs::PlannedRanks::rank_of))]
    pub(crate) fn rank(&self, asn: Asn) -> u32
        ensures { result ≡ rank_of self.now asn }
    {
        self.plan.rank(self.ranks, asn)
    }

    /// The rank of an AS, sought first at a place, which is a hint.
    #[tactic(auto, unfolding(crate::specs::PlannedRanks::rank_of))]
    pub(crate) fn rank_near(&self, asn: Asn, place: usize) -> u32
        ensures { result ≡ rank_of self.now asn }
    {
        self.plan.rank_near(self.ranks, asn, place)
    }
}
