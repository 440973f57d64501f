//! Whether a routing is right at an AS, sought by the places of the graph's rows.
ghost use Rattle.std.specs.Prelude.{◌≡◌, ◌<◌, ◌-◌, ◌^◌, ℕ, IsTrue, Some, false, length, option_map};
ghost use Rattle.std.specs.FinMap as map;
ghost use Rattle.net_names.specs.Prelude.{occurs};
ghost use Rattle.net_names.specs.declared.routes.State.{State as AState};
ghost use Rattle.as_graph.specs.Prelude.{relation, AreNeighbours};
ghost use Rattle.stability_laws.specs.declared.entry.Entry.{Entry as AnEntry};
ghost use Rattle.stability_laws.specs.Prelude.{IsBestView, better_of, policy_at, Offer, offer, offer_given, IsRight, setting_in};
ghost use Rattle.table_check.specs.Rows.{held_by};
ghost use Rattle.table_check.specs.Walk.{brief_of};

use crate::placed::{Brief, Placed};
use as_graph::Neighbour;
use net_names::{Asn, Prefix, State, place_at};
use policy_laws::{OriginStates, RoutePolicy, View};
use stability_laws::{
    Entry, Seeds, World, better, holds_given, is_of_seed, last_of, number_sent, offered_view,
};

/// The AS whose offers are looked at, and a place at which its row is sought first.
#[derive(Drop)]
struct Receiver {
    asn: Asn,
    place: usize,
}

/// A view that may be missing, and a place at which to look for the neighbour that it names.
#[derive(Drop)]
struct Best {
    view: Option<View>,
    place: usize,
}

// The place of the neighbour, where the view names it, or else the other one.
fn place_of(view: &Option<View>, neighbour: Asn, place: usize, other: usize) -> usize {
    match view {
        Some(view) => if view.neighbour == neighbour {
            place
        } else {
            other
        },
        None => other,
    }
}

// Whether an offer of an entry of the neighbour, which shows this, is surely not better than the best one so far.
fn is_no_better<P: RoutePolicy>(
    own: &P,
    sender: &P,
    neighbour: &Neighbour,
    brief: Brief,
    best: &Option<View>,
) -> bool
    ensures { IsTrue result → (state : ℕ → AState) (a : ℕ) (e : AnEntry) → brief_of e ≡ brief →
        best.now ≡ better_of (P.meaning own.now) best.now (option_map (λ o. o.view)
        (offer_given (P.meaning sender.now) (P.meaning own.now) state
        neighbour.now.asn a (Some neighbour.now.rel) (Some e))) }
{
    let Neighbour { asn, rel } = *neighbour;
    let to = rel.converse();
    if !sender.exports(brief.class, brief.otc, to) {
        return true;
    }
    let Some(old) = best else {
        return false;
    };
    if own.reads_state() {
        return false;
    }
    let view = View {
        rel,
        neighbour: asn,
        length: brief.length,
        state: State::NotFound,
        otc: number_sent(sender.marks(), asn, to, brief.otc),
    };
    !own.before(&view, old)
}

// The view of the offer that a neighbour makes of an entry to an AS that doesn't stand in its path, as `offered_view`
// gives it.
fn view_past<P: RoutePolicy, V: OriginStates>(
    sender: &P,
    own: &P,
    states: &V,
    prefix: Prefix,
    neighbour: &Neighbour,
    held: &Entry,
) -> Option<View>
    requires { length held.now.path < 2 ^ 32 - 1 }
    ensures { (a : ℕ) → occurs a held.now.path ≡ false → result ≡ option_map (λ o. o.view)
        (offer_given (P.meaning sender.now) (P.meaning own.now) (V.state_of states.now prefix)
        neighbour.now.asn a (Some neighbour.now.rel) (Some held.now)) }
{
    let Neighbour { asn, rel } = *neighbour;
    let path = held.path.as_slice();
    let to = rel.converse();
    if !sender.exports(held.class, held.otc, to) {
        return None;
    }
    let Some(origin) = last_of(path) else {
        return None;
    };
    let view = View {
        rel,
        neighbour: asn,
        length: path.len() as u32 + 1,
        state: states.state(prefix, origin),
        otc: number_sent(sender.marks(), asn, to, held.otc),
    };
    if own.accepts(&view) { Some(view) } else { None }
}

// The better one of the best view so far and that of the offer that the neighbour makes, where it makes one.
fn better_with<P: RoutePolicy, V: OriginStates>(
    world: &World<'_, P, V>,
    prefix: Prefix,
    placed: &Placed<'_>,
    receiver: &Receiver,
    neighbour: &Neighbour,
    place: usize,
    best: Option<View>,
) -> Option<View>
    requires { relation world.now.graph.now receiver.now.asn neighbour.now.asn ≡ Some neighbour.now.rel }
    ensures { result ≡ better_of (P.meaning (policy_at world.now.book.now receiver.now.asn)) best
        (option_map (λ o. o.view) (offer (setting_in P.meaning V.state_of world.now prefix)
        (held_by placed.now.table.now placed.now.round) neighbour.now.asn receiver.now.asn)) }
{
    let Some(brief) = placed.brief_near(neighbour.asn, place) else {
        return best;
    };
    let length = brief.length;
    let own = world.book.policy_near(receiver.asn, receiver.place);
    let sender = world.book.policy_near(neighbour.asn, place);
    if is_no_better(own, sender, neighbour, brief, &best) {
        return best;
    }
    let Some(held) = placed.near(neighbour.asn, place) else {
        return best;
    };
    let a = receiver.asn;
    let Some(numbers) = placed.numbers_of(neighbour.asn, length) else {
        let view = offered_view(sender, own, world.states, prefix, neighbour, a, held);
        return better(own, best, view);
    };
    if numbers.has(a) {
        return best;
    }
    let view = view_past(sender, own, world.states, prefix, neighbour, held);
    better(own, best, view)
}

// The view of the best offer of the neighbours, where one makes an offer.
fn best_view<P: RoutePolicy, V: OriginStates>(
    world: &World<'_, P, V>,
    neighbours: &[Neighbour],
    places: &[u32],
    prefix: Prefix,
    placed: &Placed<'_>,
    receiver: &Receiver,
) -> Best
    requires { AreNeighbours (relation world.now.graph.now) receiver.now.asn neighbours.now }
    ensures { IsBestView (P.meaning (policy_at world.now.book.now receiver.now.asn))
        (λ n. offer (setting_in P.meaning V.state_of world.now prefix)
        (held_by placed.now.table.now placed.now.round) n receiver.now.asn) result.view }
{
    let mut best: Option<View> = None;
    let mut at = 0usize;
    let mut index = 0usize;
    for neighbour in neighbours {
        let place = place_at(places, index);
        best = better_with(world, prefix, placed, receiver, neighbour, place, best);
        at = place_of(&best, neighbour.asn, place, at);
        index = index.wrapping_add(1);
    }
    Best {
        view: best,
        place: at,
    }
}

// Whether the entry is that of the offer with this view.
fn is_offer<P: RoutePolicy, V: OriginStates>(
    world: &World<'_, P, V>,
    prefix: Prefix,
    placed: &Placed<'_>,
    view: &View,
    place: usize,
    receiver: &Receiver,
    entry: &Entry,
) -> bool
    ensures { (o : Offer) → offer (setting_in P.meaning V.state_of world.now prefix)
        (held_by placed.now.table.now placed.now.round) view.now.neighbour receiver.now.asn ≡ Some o →
        o.view ≡ view.now → IsTrue result → entry.now ≡ o.entry }
{
    match placed.near(view.neighbour, place) {
        Some(given) => holds_given(
            world.book.policy_near(view.neighbour, place),
            world.book.policy_near(receiver.asn, receiver.place),
            view.neighbour,
            receiver.asn,
            view.rel,
            given,
            entry,
        ),
        None => false,
    }
}

/// Whether it is quickly seen that the section is right at the AS, whose row is sought first at a place.
pub(crate) fn is_right_near<P: RoutePolicy, V: OriginStates>(
    world: &World<'_, P, V>,
    prefix: Prefix,
    seeds: &Seeds,
    placed: &Placed<'_>,
    asn: Asn,
    place: usize,
) -> bool
    ensures { IsTrue result → IsRight (setting_in P.meaning V.state_of world.now prefix) (map.get seeds.now)
        (held_by placed.now.table.now placed.now.round) asn }
{
    let held = placed.near(asn, place);
    if let Some(seed) = seeds.get(asn) {
        return match held {
            Some(entry) => is_of_seed(entry, seed),
            None => false,
        };
    }
    let neighbours = world.graph.neighbours_near(asn, place);
    let places = world.graph.neighbour_places(place);
    let receiver = Receiver { asn, place };
    let best = best_view(world, neighbours, places, prefix, placed, &receiver);
    match (best.view, held) {
        (None, None) => true,
        (Some(view), Some(entry)) => is_offer(
            world, prefix, placed, &view, best.place, &receiver, entry,
        ),
        (None, Some(_)) => false,
        (Some(_), None) => false,
    }
}
