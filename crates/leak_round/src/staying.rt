//! Whether an AS is right still after one of its links was edited. One or two offers decide, and not all.

ghost use Rattle.std.specs.Prelude.{◌≡◌, ℕ, IsTrue, Some, slice_get};
ghost use Rattle.path_pool.specs.Pool.{IsLive, list_of};
ghost use Rattle.stability_laws.specs.Prelude.{Offer as AnOffer, offer};
ghost use Rattle.route_choice.specs.Prelude.{setting_at, table_routing, AreEntriesLive};
ghost use Rattle.leak_round.specs.Staying.{IsAhead, StaysRightAt};

use net_names::{Asn, Class};
use path_pool::{PathPool, paths_are_not_empty};
use policy_laws::{OriginStates, RoutePolicy, View};
use route_choice::{Held, PlacedAs, PrefixWorld, view_but_for_loops};
use stability_laws::{offer_names, offer_path};

// The view of the offer that an AS makes the receiver. Whether the path goes through the receiver is not asked: then
// there is no offer.
fn view_from<P: RoutePolicy, V: OriginStates>(
    at: &PrefixWorld<'_, P, V>,
    pool: &PathPool,
    receiver: PlacedAs,
    giver: Asn,
) -> Option<View>
    requires { AreEntriesLive pool.now at.now.table.now }
    ensures { (o : AnOffer) → offer (setting_at P.meaning V.state_of at.now)
        (table_routing pool.now at.now.table.now) giver receiver.asn ≡ Some o → result ≡ Some o.view }
{
    let Some(rel) = at.graph.rel(receiver.asn, giver) else {
        return None;
    };
    let place = at.graph.place_near(giver, 0);
    let held = at.table.get_near(giver, place);
    let giver = PlacedAs { asn: giver, place };
    view_but_for_loops(at, pool, giver, receiver, rel, held)
}

// Whether the AS that comes second on the path of an entry is not the end of the edited link, and makes an offer that
// is put before that of the end.
fn stays_with<P: RoutePolicy, V: OriginStates>(
    at: &PrefixWorld<'_, P, V>,
    pool: &PathPool,
    receiver: &PlacedAs,
    entry: &Held,
    end: Asn,
) -> bool
    requires live { AreEntriesLive pool.now at.now.table.now }
    requires entry { IsLive pool.now entry.now.path.0 }
    ensures { IsTrue result → (from : ℕ) → slice_get (list_of pool.now entry.now.path.0) 1 ≡ Some from →
        IsAhead (setting_at P.meaning V.state_of at.now) (table_routing pool.now at.now.table.now)
        receiver.now.asn end from }
{
    paths_are_not_empty(pool);
    let Some(rest) = pool.tail(entry.path) else {
        return false;
    };
    let from = pool.head(rest);
    if from == end {
        return false;
    }
    let Some(new) = view_from(at, pool, *receiver, end) else {
        return true;
    };
    let Some(best) = view_from(at, pool, *receiver, from) else {
        return false;
    };
    at.book
        .policy_near(receiver.asn, receiver.place)
        .before(&best, &new)
}

/// Whether an AS that was right before its link with another AS was edited is right still with what it holds. It looks
/// at two offers at most. The world is that after the edit.
pub fn stays_right<P: RoutePolicy, V: OriginStates>(
    at: &PrefixWorld<'_, P, V>,
    pool: &PathPool,
    asn: Asn,
    end: Asn,
) -> bool
    requires { AreEntriesLive pool.now at.now.table.now }
    ensures { IsTrue result → StaysRightAt P.meaning V.state_of at.now pool.now asn end }
{
    offer_names::<P>();
    offer_path::<P>();
    let place = at.graph.place_near(asn, 0);
    let receiver = PlacedAs { asn, place };
    let Some(entry) = at.table.get_near(asn, place) else {
        return view_from(at, pool, receiver, end).is_none();
    };
    if entry.class == Class::Origin {
        return true;
    }
    stays_with(at, pool, &receiver, &entry, end)
}
