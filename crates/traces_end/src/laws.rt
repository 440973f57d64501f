//! The law. It is a function without effect: who needs it calls it, and has its clause.
ghost use Rattle.traces_end.specs.Arriving.{PacketsArrive};

use data_trace::longest_is_sent;
use policy_laws::RoutePolicy;
use stability_laws::paths_go_on;

/// In a round in which nobody leaks no packet runs in a loop, and one finds no route exactly where its first
/// AS has no entry of a prefix that holds the address. So it is in round 1 of each plan.
pub fn packets_arrive<P: RoutePolicy>()
    ensures { PacketsArrive P.meaning }
{
    longest_is_sent();
    paths_go_on::<P>();
}
