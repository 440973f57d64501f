//! What an AS would see of an offer, before its path is walked.

ghost use Rattle.std.specs.Prelude.{◌≡◌, ℕ, Option, Some, None, option_map, if◌then◌else◌};
ghost use Rattle.as_graph.specs.Prelude.{Topology, relation};
ghost use Rattle.path_pool.specs.Pool.{IsLive};
ghost use Rattle.stability_laws.specs.declared.entry.Entry.{Entry as AnEntry};
ghost use Rattle.stability_laws.specs.Prelude.{offer, setting};
ghost use Rattle.route_choice.specs.declared.held.Held.{Held as AHeld};
ghost use Rattle.route_choice.specs.Tables.{prefix_of};
ghost use Rattle.route_choice.specs.Routings.{entry_of};
ghost use Rattle.route_choice.specs.Views.{goes_through};

use crate::{Held, PlacedAs, PrefixWorld};
use net_names::Rel;
use path_pool::PathPool;
use policy_laws::{OriginStates, RoutePolicy, View};
use stability_laws::number_sent;

/// The view of the offer that `giver`, which is `rel` to the receiver, makes of what it holds. There is
/// none where it holds nothing, where its policy does not export the entry, and where the policy of the
/// receiver does not accept the view. Whether the path goes through the receiver is not asked: then
/// there is no offer. The places of both are hints. Walks along no path, and takes no memory.
pub fn view_but_for_loops<P: RoutePolicy, V: OriginStates>(
    at: &PrefixWorld<'_, P, V>,
    pool: &PathPool,
    giver: PlacedAs,
    receiver: PlacedAs,
    rel: Rel,
    given: Option<Held>,
) -> Option<View>
    requires live { (h : AHeld) → given ≡ Some h → IsLive pool.now h.path.0 }
    ensures { (w : Topology) (f : ℕ → Option AnEntry) → relation w receiver.asn giver.asn ≡ Some rel →
        f giver.asn ≡ option_map (entry_of pool.now) given →
        option_map (λ o. o.view) (offer (setting P.meaning w at.now.book.now
        (V.state_of at.now.states.now (prefix_of at.now.table.now))) f giver.asn receiver.asn)
        ≡ (if goes_through (f giver.asn) receiver.asn then None else result) }
{
    let held = given?;
    let sender = at.book.policy_near(giver.asn, giver.place);
    let to = rel.converse();
    if !sender.exports(held.class, held.otc, to) {
        return None;
    }
    let view = View {
        rel,
        neighbour: giver.asn,
        length: pool.length(held.path) + 1,
        state: at.states.state(at.table.prefix(), pool.last(held.path)),
        otc: number_sent(sender.marks(), giver.asn, to, held.otc),
    };
    if at
        .book
        .policy_near(receiver.asn, receiver.place)
        .accepts(&view)
    {
        Some(view)
    } else {
        None
    }
}
