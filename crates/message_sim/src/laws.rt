//! The laws of nets, for every policy type. Each is a function without a body: who needs a law calls it,
//! and has its clause.
ghost use Rattle.message_sim.specs.Laws.{QuietNetsAreStable, DeliveriesEnd, DeliveriesSettle, FairOrdersSettle, RestSettles, TurnsSettle, WorldsHaveHeights};
ghost use Rattle.message_sim.specs.FileLaws.{DeliveriesAreThoseSaid};

use policy_laws::RoutePolicy;

/// After any deliveries from the start, a net without messages under way holds a stable routing.
pub fn quiet_nets_are_stable<P: RoutePolicy>()
    ensures { QuietNetsAreStable P.meaning }
{}

/// Deliveries come to an end, in whatever order (Gao and Rexford 2001, safety).
pub fn deliveries_end<P: RoutePolicy>()
    ensures { DeliveriesEnd P.meaning }
{}

/// Deliveries from the start come to an end in whatever order, and where no message can be delivered any
/// more the ASes hold the one stable routing (Gao and Rexford 2001, safety).
pub fn deliveries_settle<P: RoutePolicy>()
    ensures { DeliveriesSettle P.meaning }
{}

/// In every fair order of turns the ASes come to hold the one stable routing (Gao and Rexford 2001).
pub fn fair_orders_settle<P: RoutePolicy>()
    ensures { FairOrdersSettle P.meaning }
{}

/// `Net::rest` of a net at its start leaves it settled, where it is let make enough deliveries.
pub fn rest_settles<P: RoutePolicy>()
    ensures { RestSettles P.meaning }
{}

/// Turns from the start leave the ASes with the one stable routing, where enough of them name no link, or
/// where no message is under way after them.
pub fn turns_settle<P: RoutePolicy>()
    ensures { TurnsSettle P.meaning }
{}

/// What a file of deliveries says is what its lines say: it is accepted exactly where the first line that
/// isn't skipped names a round and a prefix, and each other one asks for deliveries, at most 1,000,000 in
/// all. Its steps are those of the lines, in their order.
pub fn deliveries_are_those_said()
    ensures { DeliveriesAreThoseSaid }
{}

/// In each world without a provider cycle one chain of providers and customers is the longest, of which
/// `deliveries_settle` and `deliveries_end` speak.
pub fn worlds_have_heights()
    ensures { WorldsHaveHeights }
{}
