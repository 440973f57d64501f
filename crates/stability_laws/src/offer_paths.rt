//! The path of an offer.
ghost use Rattle.stability_laws.specs.OfferPaths.{OfferPath};

use policy_laws::RoutePolicy;

/// An offer is of an entry that the giver holds, and its path is the receiver and then that entry's path.
pub fn offer_path<P: RoutePolicy>()
    ensures { OfferPath P.meaning }
{}
