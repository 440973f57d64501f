//! Whether a routing is right at one AS.
ghost use Rattle.std.specs.Prelude.{◌≡◌, ◌↔◌, IsTrue, IsOk, ◌<◌, ◌-◌, Some, option_map};
ghost use Rattle.std.specs.FinMap as map;
ghost use Rattle.as_graph.specs.Prelude.{relation, AreNeighbours};
ghost use Rattle.stability_laws.specs.Book.{policy_at};
ghost use Rattle.stability_laws.specs.Offers.{Offer, offer, passed_on};
ghost use Rattle.stability_laws.specs.Entries.{seed_entry};
ghost use Rattle.stability_laws.specs.Stable.{IsRight};
ghost use Rattle.stability_laws.specs.Verdict.{IsVerdict};
ghost use Rattle.stability_laws.specs.BestView.{IsBestView, better_of};
ghost use Rattle.stability_laws.specs.World.{setting_in};

use crate::entry::{Entry, Seed};
use crate::offers::{carried, class_from, offered_view};
use crate::routing::{Routing, Seeds};
use crate::same::{has_parts, is_of_seed};
use crate::world::World;
use crate::wrong::Wrong;
use as_graph::Neighbour;
use net_names::{Asn, Prefix, Rel};
use policy_laws::{OriginStates, RoutePolicy, View};

// The view of the offer that the neighbour makes, where it makes one.
fn view_from<P: RoutePolicy, V: OriginStates>(
    world: &World<'_, P, V>,
    prefix: Prefix,
    routing: &Routing,
    asn: Asn,
    neighbour: &Neighbour,
) -> Option<View>
    requires { relation world.now.graph.now asn neighbour.now.asn ≡ Some neighbour.now.rel }
    ensures { result ≡ option_map (λ o. o.view)
        (offer (setting_in P.meaning V.state_of world.now prefix) (map.get routing.now) neighbour.now.asn asn) }
{
    let held = routing.get(neighbour.asn)?;
    offered_view(
        world.book.policy(neighbour.asn),
        world.book.policy(asn),
        world.states,
        prefix,
        neighbour,
        asn,
        held,
    )
}

/// The better one of two views that may be missing.
pub fn better<P: RoutePolicy>(policy: &P, best: Option<View>, new: Option<View>) -> Option<View>
    ensures { result ≡ better_of (P.meaning policy.now) best new }
{
    match (best, new) {
        (None, _) => new,
        (Some(_), None) => best,
        (Some(old), Some(view)) => if policy.before(&view, &old) {
            new
        } else {
            best
        },
    }
}

// The view of the best offer of the neighbours, where one makes an offer.
fn best_among<P: RoutePolicy, V: OriginStates>(
    world: &World<'_, P, V>,
    neighbours: &[Neighbour],
    prefix: Prefix,
    routing: &Routing,
    asn: Asn,
) -> Option<View>
    requires { AreNeighbours (relation world.now.graph.now) asn neighbours.now }
    ensures { IsBestView (P.meaning (policy_at world.now.book.now asn))
        (λ n. offer (setting_in P.meaning V.state_of world.now prefix) (map.get routing.now) n asn) result }
{
    let own = world.book.policy(asn);
    let mut best: Option<View> = None;
    for neighbour in neighbours {
        let view = view_from(world, prefix, routing, asn, neighbour);
        best = better(own, best, view);
    }
    best
}

/// The view of the best offer that the AS's neighbours make, where one makes an offer.
pub(crate) fn best_view<P: RoutePolicy, V: OriginStates>(
    world: &World<'_, P, V>,
    prefix: Prefix,
    routing: &Routing,
    asn: Asn,
) -> Option<View>
    ensures { IsBestView (P.meaning (policy_at world.now.book.now asn))
        (λ n. offer (setting_in P.meaning V.state_of world.now prefix) (map.get routing.now) n asn) result }
{
    best_among(world, world.graph.neighbours(asn), prefix, routing, asn)
}

/// Whether the entry is what the AS `a` holds of an entry of `n`, which is `from` to it. It takes no memory.
pub fn holds_given<P: RoutePolicy>(
    sender: &P,
    receiver: &P,
    n: Asn,
    a: Asn,
    from: Rel,
    given: &Entry,
    entry: &Entry,
) -> bool
    ensures { IsTrue result ↔
        (entry.now ≡ passed_on (P.meaning sender.now).marks (P.meaning receiver.now).marks n a from given.now) }
{
    let otc = carried(sender, receiver, n, from.converse(), given.otc);
    has_parts(entry, class_from(from), a, given.path.as_slice(), otc)
}

// Whether the entry is that of the offer with this view.
fn is_offer<P: RoutePolicy, V: OriginStates>(
    world: &World<'_, P, V>,
    prefix: Prefix,
    routing: &Routing,
    asn: Asn,
    view: &View,
    entry: &Entry,
) -> bool
    ensures { (o : Offer) →
        offer (setting_in P.meaning V.state_of world.now prefix) (map.get routing.now) view.now.neighbour asn ≡ Some o →
        o.view ≡ view.now → IsTrue result ↔ (entry.now ≡ o.entry) }
{
    match routing.get(view.neighbour) {
        Some(given) => holds_given(
            world.book.policy(view.neighbour),
            world.book.policy(asn),
            view.neighbour,
            asn,
            view.rel,
            given,
            entry,
        ),
        None => false,
    }
}

// Whether the AS holds the entry of its seed.
fn holds_seed(routing: &Routing, asn: Asn, seed: &Seed) -> bool
    ensures { IsTrue result ↔ (map.get routing.now asn ≡ Some (seed_entry seed.now)) }
{
    match routing.get(asn) {
        Some(entry) => is_of_seed(entry, seed),
        None => false,
    }
}

/// Whether the routing is right at the AS: `Ok` exactly where it holds its seed's entry, or has no seed
/// and holds the entry of the best offer that its neighbours make, or has neither a seed nor an offer
/// and holds nothing (RFC 4271, section 9.1.2). `Wrong` says what is wrong. It takes no memory.
pub fn check_at<P: RoutePolicy, V: OriginStates>(
    world: &World<'_, P, V>,
    prefix: Prefix,
    seeds: &Seeds,
    routing: &Routing,
    asn: Asn,
) -> Result<(), Wrong>
    ensures verdict { IsVerdict (setting_in P.meaning V.state_of world.now prefix) (map.get seeds.now)
        (map.get routing.now) asn result }
    ensures right { IsRight (setting_in P.meaning V.state_of world.now prefix) (map.get seeds.now)
        (map.get routing.now) asn → IsOk result }
{
    if let Some(seed) = seeds.get(asn) {
        return if holds_seed(routing, asn, seed) {
            Ok(())
        } else {
            Err(Wrong::SeedNotHeld)
        };
    }
    let best = best_view(world, prefix, routing, asn);
    match (best, routing.get(asn)) {
        (None, None) => Ok(()),
        (None, Some(_)) => Err(Wrong::Unexpected),
        (Some(view), None) => Err(Wrong::Absent { by: view.neighbour }),
        (Some(view), Some(entry)) => {
            let held = is_offer(world, prefix, routing, asn, &view, entry);
            if held {
                Ok(())
            } else {
                Err(Wrong::NotBest { by: view.neighbour })
            }
        }
    }
}
