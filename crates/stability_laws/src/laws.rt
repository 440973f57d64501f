//! Laws of offers, choices and stable routings, for every policy type. Each is a function without a
//! body: who needs a law calls it, and has its clause.
ghost use Rattle.stability_laws.specs.Laws.{OfferFollows, OfferNames, RightByOffers, RightFollows, OneAnswer, NothingUp, CustomersDecide, OneStableRouting, OneFamily, PathsGoOn};
ghost use Rattle.stability_laws.specs.AnyOrder.{AnyOrderSettles};
ghost use Rattle.stability_laws.specs.Existence.{AStableRoutingExists, ExactlyOneFamily, ExactlyOneStableRouting};

use policy_laws::RoutePolicy;

/// The offer that one AS makes to another depends on their link, what the one exports and whether
/// it marks, the policy of the other, the states, and the entry at the one.
pub fn offer_follows<P: RoutePolicy>()
    ensures { OfferFollows P.meaning }
{}

/// An offer comes over a link, and its view and class name what the giver is.
pub fn offer_names<P: RoutePolicy>()
    ensures { OfferNames P.meaning }
{}

/// Whether a routing is right at an AS depends on its policy, its seed, its entry and the offers
/// made to it.
pub fn right_by_offers<P: RoutePolicy>()
    ensures { RightByOffers P.meaning }
{}

/// Whether a routing is right at an AS depends on its links, its seed, its policy, what its
/// neighbours' policies export and whether they mark, the states, where the policy reads them, and
/// the entries at it and at its neighbours.
pub fn right_follows<P: RoutePolicy>()
    ensures { RightFollows P.meaning }
{}

/// With given entries of the neighbours there is exactly one answer, an entry or none, with which an
/// AS is right.
pub fn one_answer<P: RoutePolicy>()
    ensures { OneAnswer P.meaning }
{}

/// An AS whose entry is of class Peer or Provider, or that has no entry, makes no offer to a peer
/// or a provider of its own (Gao and Rexford 2001).
pub fn nothing_up<P: RoutePolicy>()
    ensures { NothingUp P.meaning }
{}

/// An AS without a seed that has an offer from a customer is right exactly with the best of its
/// customers' offers (Gao and Rexford 2001).
pub fn customers_decide<P: RoutePolicy>()
    ensures { CustomersDecide P.meaning }
{}

/// Two stable routings of one world without a provider cycle, for one prefix and the same seeds, are
/// equal.
pub fn one_stable_routing<P: RoutePolicy>()
    ensures { OneStableRouting P.meaning }
{}

/// Two families of stable routings, one for each round and prefix of a world without a provider
/// cycle, are equal.
pub fn one_family<P: RoutePolicy>()
    ensures { OneFamily P.meaning }
{}

/// In the rounds of a plan each path starts with its AS, and where the AS does not announce the prefix
/// the path goes on to an AS of the world.
pub fn paths_go_on<P: RoutePolicy>()
    ensures { PathsGoOn P.meaning }
{}

/// From any routing, any list of activations with twice as many full pieces as the longest chain
/// has ASes ends in the stable routing (Gao and Rexford 2001).
pub fn any_order_settles<P: RoutePolicy>()
    ensures { AnyOrderSettles P.meaning }
{}

/// In each world without a provider cycle there is a stable routing, whatever the policies, the states and
/// the seeds: activations of all ASes in turn, often enough, end in it (Gao and Rexford 2001).
pub fn a_stable_routing_exists<P: RoutePolicy>()
    ensures { AStableRoutingExists P.meaning }
{
    one_answer::<P>();
}

/// In each world without a provider cycle exactly one routing is stable (Gao and Rexford 2001).
pub fn exactly_one_stable_routing<P: RoutePolicy>()
    ensures { ExactlyOneStableRouting P.meaning }
{
    a_stable_routing_exists::<P>();
    one_stable_routing::<P>();
}

/// In each world without a provider cycle, and for each plan, there is exactly one family of stable
/// routings, one for each round and prefix.
pub fn exactly_one_family<P: RoutePolicy>()
    ensures { ExactlyOneFamily P.meaning }
{
    a_stable_routing_exists::<P>();
    one_family::<P>();
}
