//! The laws of policies that a recomputation rests on.

ghost use Rattle.dirty_recompute.specs.Laws.{AreLaws};

use policy_laws::RoutePolicy;
use stability_laws::{
    customers_decide, nothing_up, offer_follows, offer_names, one_stable_routing, right_by_offers,
};

/// The laws of a kind of policies. It does nothing, and is called for its clause.
pub(crate) fn laws_hold<P: RoutePolicy>()
    ensures { AreLaws P.meaning }
{
    offer_names::<P>();
    offer_follows::<P>();
    right_by_offers::<P>();
    nothing_up::<P>();
    customers_decide::<P>();
    one_stable_routing::<P>();
}
