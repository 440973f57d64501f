//! What the tables of all rounds are built by.

ghost use Rattle.std.specs.Prelude.{◌≤◌, length};
ghost use Rattle.as_graph.specs.Prelude.{relation, HasNoProviderCycle};
ghost use Rattle.stability_laws.specs.Prelude.{prefixes_of};
ghost use Rattle.leak_round.specs.declared.limits.TheConstants.{MOST_PREFIXES};

use crate::announced::Announced;
use stability_laws::{SeedPlan, World};
use std::alloc::Global;
use three_pass::Way;

/// What the tables of all rounds are built by, lent. The graph has no provider cycle, and the plan has at
/// most 32 prefixes.
#[derive(Drop)]
pub struct Building<'a, P, V> {
    pub alloc: Global,
    pub world: &'a World<'a, P, V>,
    /// The way along a course through the graph of the world.
    pub way: &'a Way<'a>,
    /// Who announces what, and who leaks in which round.
    pub plan: &'a SeedPlan,
    /// The announced paths of the plan.
    pub announced: &'a [Announced],
    ghost no_cycle: { HasNoProviderCycle (relation world.now.graph.now) },
    ghost few: { length (prefixes_of plan.now) ≤ MOST_PREFIXES },
}
