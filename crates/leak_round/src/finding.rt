//! What the changes of all tables are found by.

ghost use Rattle.as_graph.specs.Prelude.{relation, HasNoProviderCycle};
ghost use Rattle.rank_order.specs.Prelude.{IsLastPlan};
ghost use Rattle.leak_round.specs.Edited.{announced_after, prefix_edited};
ghost use Rattle.leak_round.specs.OwnSeeds.{AreOwnEdited, AreOwnSeeds, AreOthersKept};

use crate::announced::Announced;
use crate::edited::EditedSeeds;
use crate::touched::Touched;
use dirty_recompute::PlannedRanks;
use route_choice::SeedIds;
use stability_laws::{SeedPlan, World};
use std::alloc::Global;

/// What the changes of all tables after an edit are found by, lent. The graph has no provider cycle.
#[derive(Drop)]
pub struct Finding<'a, P, V> {
    pub alloc: Global,
    /// The world after the edit.
    pub world: &'a World<'a, P, V>,
    /// Its ranks.
    pub ranks: &'a PlannedRanks<'a>,
    /// Who announces what before the edit, and who leaks in which round.
    pub plan: &'a SeedPlan,
    /// The announced paths of the plan.
    pub announced: &'a [Announced],
    /// The seeds that they make, prefix by prefix.
    pub own: &'a [SeedIds],
    /// The seeds after an edit of who announces what, where there is one.
    pub edited: &'a Option<EditedSeeds>,
    /// The ASes that may hold something wrong.
    pub touched: &'a Touched,
    ghost no_cycle: { HasNoProviderCycle (relation world.now.graph.now) },
    ghost last: { IsLastPlan ranks.now.ranks.now ranks.now.plan.now },
    ghost own_seeds: { AreOwnSeeds plan.now announced.now own.now },
    ghost fresh: { AreOwnEdited edited.now },
    ghost others: { AreOthersKept (prefix_edited edited.now) announced.now (announced_after edited.now announced.now) },
}
