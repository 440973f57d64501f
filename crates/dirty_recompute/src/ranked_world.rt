//! What the turns after an edit read, lent.

ghost use Rattle.std.specs.Prelude.{◌≡◌, ◌≤◌, ℕ, suc, false, None, Some};
ghost use Rattle.net_names.specs.declared.routes.Rel.TheVariants.{Customer};
ghost use Rattle.as_graph.specs.Prelude.{relation, has, HasNoProviderCycle};
ghost use Rattle.route_choice.specs.Prelude.{seed_at};
ghost use Rattle.dirty_recompute.specs.PlannedRanks.{rank_of};

use crate::planned_ranks::PlannedRanks;
use route_choice::PrefixWorld;

/// The world after an edit, at one prefix, with the ranks of its ASes. It has no provider cycle, customers
/// are of lower rank, and only ASes of the graph have seeds.
#[derive(Drop)]
pub(crate) struct RankedWorld<'a, P, V> {
    /// The world, with the table as it was before the edit.
    pub at: PrefixWorld<'a, P, V>,
    /// The ranks.
    pub ranks: PlannedRanks<'a>,
    ghost no_cycle: { HasNoProviderCycle (relation at.graph.now) },
    ghost falls: { (a b : ℕ) → relation at.graph.now a b ≡ Some Customer → suc (rank_of ranks b) ≤ rank_of ranks a },
    ghost seeds: { (b : ℕ) → has at.graph.now b ≡ false → seed_at at.seeds.now b ≡ None },
}
