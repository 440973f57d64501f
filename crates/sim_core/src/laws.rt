//! What holds of all worlds.
ghost use Rattle.sim_core.specs.Laws.{OneAnswer, OneCount, OneKept, OneReason};
ghost use Rattle.sim_core.specs.Lent.{KeptIsStable, LentHasNoCycle, LentIsRanked, LentIsSetting, NoOtherIsStable};

use policy_kinds::Kind;
use stability_laws::one_stable_routing;

/// A query that is not refused has one answer, whatever is kept of the world to find it. An edit that is
/// not refused changes one number of entries. An edit is refused for one reason, or each time for a
/// provider cycle.
pub fn answers_are_one()
    ensures answer { OneAnswer }
    ensures count { OneCount }
    ensures reason { OneReason }
{}

/// What is kept of a world is one: two that are right for it are the same in the routings of its rounds and
/// prefixes, in the ranks, and in where its packets end. So what a simulation keeps after any edits is what
/// a load of the edited world keeps (Gao and Rexford 2001).
pub fn kept_is_one()
    ensures { OneKept }
{}

/// The graph, the policies and the payloads that a world lends are what its routings rest on: with them
/// the routing that is kept of a round and a prefix is stable for the seeds that follow from the round
/// before, and where there is no provider cycle no other is (Gao and Rexford 2001).
pub fn kept_are_stable()
    ensures setting { LentIsSetting }
    ensures no_cycle { LentHasNoCycle }
    ensures ranked { LentIsRanked }
    ensures stable { KeptIsStable }
    ensures only { NoOtherIsStable }
{
    one_stable_routing::<Kind>();
}
