//! What holds of all traces.
ghost use Rattle.data_trace.specs.Hops.{LongestIsSent};
ghost use Rattle.data_trace.specs.Traces.{OneTrace};
ghost use Rattle.data_trace.specs.Rounds.{RoundsStayInside};

use policy_laws::RoutePolicy;

/// An AS sends a packet by the longest prefix of the plan that holds the address and of which it has an
/// entry, and by none exactly where there is none.
pub fn longest_is_sent()
    ensures { LongestIsSent }
{}

/// Each AS has exactly one trace, and it is the longest list of distinct ASes that starts at the AS
/// and in which each next one is the next hop of the one before.
pub fn one_trace()
    ensures { OneTrace }
{}

/// In each round of a plan, an AS that does not announce a prefix sends its packets to an AS of the
/// graph.
pub fn rounds_stay_inside<P: RoutePolicy>()
    ensures { RoundsStayInside P.meaning }
{}
