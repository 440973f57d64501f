//! Whether what a neighbour holds shows that it need not choose anew.

ghost use Rattle.std.specs.Prelude.{◌≡◌, ◌≢◌, ℕ, Some, IsTrue, false, ◌∷◌, option_map};
ghost use Rattle.path_pool.specs.Pool.{IsLive, list_of};
ghost use Rattle.route_choice.specs.declared.held.Held.{Held as AHeld};
ghost use Rattle.route_choice.specs.Prelude.{setting_at, AreHeld, entry_of, routing_of, goes_through};
ghost use Rattle.dirty_recompute.specs.Spared.{HasRival};

use crate::giving::held_near;
use net_names::Asn;
use path_pool::{PathPool, paths_are_not_empty};
use policy_laws::{OriginStates, RoutePolicy, View};
use route_choice::{Held, Overlay, PlacedAs, PrefixWorld, view_but_for_loops};

/// How many ASes of a path are looked at, at most, before a neighbour is made to choose anew: so none
/// costs more than a fixed time.
const MOST_LOOKED_AT: u32 = 64;

/// Whether the path of the one entry may be an AS and then the path of the other. It looks at the second
/// AS of the one path and the first of the other.
pub(crate) fn may_be_over(pool: &PathPool, have: &Option<Held>, before: &Option<Held>) -> bool
    requires have { (h : AHeld) → have.now ≡ Some h → IsLive pool.now h.path.0 }
    requires before { (k : AHeld) → before.now ≡ Some k → IsLive pool.now k.path.0 }
    ensures { result ≡ false → (b : ℕ) (h k : AHeld) → have.now ≡ Some h → before.now ≡ Some k →
        list_of pool.now h.path.0 ≢ b ∷ list_of pool.now k.path.0 }
{
    paths_are_not_empty(pool);
    let Some(one) = have else {
        return false;
    };
    let Some(other) = before else {
        return false;
    };
    match pool.tail(one.path) {
        Some(rest) => pool.head(rest) == pool.head(other.path),
        None => false,
    }
}

// Whether an entry is held whose path is short, and does not go through the AS.
fn is_clear(pool: &PathPool, held: &Option<Held>, asn: Asn) -> bool
    requires { (h : AHeld) → held.now ≡ Some h → IsLive pool.now h.path.0 }
    ensures { IsTrue result → goes_through (option_map (entry_of pool.now) held.now) asn ≡ false }
{
    match held {
        Some(entry) => {
            pool.length(entry.path) <= MOST_LOOKED_AT && !pool.contains(entry.path, asn)
        }
        None => false,
    }
}

// Whether an AS makes the neighbour an offer which its policy puts before the view. The places of both are hints.
fn is_rival<P: RoutePolicy, V: OriginStates>(
    at: &PrefixWorld<'_, P, V>,
    pool: &PathPool,
    overlay: &Overlay,
    giver: &PlacedAs,
    neighbour: &PlacedAs,
    view: &View,
) -> bool
    requires held { AreHeld pool.now at.now.table.now overlay.now }
    ensures { IsTrue result → (a : ℕ) → giver.now.asn ≢ a → HasRival (setting_at P.meaning V.state_of at.now)
        (routing_of pool.now at.now.table.now overlay.now) a neighbour.now.asn view.now }
{
    let Some(rel) = at.graph.rel(neighbour.asn, giver.asn) else {
        return false;
    };
    let given = held_near(at.table, overlay, giver.asn, giver.place);
    match view_but_for_loops(at, pool, *giver, *neighbour, rel, given) {
        Some(offered) => {
            let own = at.book.policy_near(neighbour.asn, neighbour.place);
            own.before(&offered, view) && is_clear(pool, &given, neighbour.asn)
        }
        None => false,
    }
}

/// Whether the AS that comes second on the path of what the neighbour holds makes it an offer which its
/// policy puts before the view. The place of the neighbour is a hint.
pub(crate) fn has_rival<P: RoutePolicy, V: OriginStates>(
    at: &PrefixWorld<'_, P, V>,
    pool: &PathPool,
    overlay: &Overlay,
    asn: Asn,
    neighbour: &PlacedAs,
    have: &Option<Held>,
    view: &View,
) -> bool
    requires held { AreHeld pool.now at.now.table.now overlay.now }
    requires have { (h : AHeld) → have.now ≡ Some h → IsLive pool.now h.path.0 }
    ensures { IsTrue result → HasRival (setting_at P.meaning V.state_of at.now)
        (routing_of pool.now at.now.table.now overlay.now) asn neighbour.now.asn view.now }
{
    let Some(entry) = have else {
        return false;
    };
    let Some(rest) = pool.tail(entry.path) else {
        return false;
    };
    let other = pool.head(rest);
    if other == asn {
        return false;
    }
    let place = at.graph.place_near(other, 0);
    let giver = PlacedAs { asn: other, place };
    is_rival(at, pool, overlay, &giver, neighbour, view)
}
