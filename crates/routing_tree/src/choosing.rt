//! Which offer an AS chooses.

ghost use Rattle.std.specs.Prelude.{◌≡◌, ◌≢◌, ◌⊎◌, ◌<◌, ◌≤◌, ℕ, IsTrue, Option, Some, None, true, false, length, option_map, slice_get, nat_eq};
ghost use Rattle.std.specs.List.{IsDistinct};
ghost use Rattle.net_names.specs.Prelude.{occurs};
ghost use Rattle.net_names.specs.declared.routes.Rel.TheVariants.{Peer};
ghost use Rattle.net_names.specs.declared.routes.State.{State as AState};
ghost use Rattle.policy_laws.specs.Policy.{Policy};
ghost use Rattle.policy_laws.specs.Prelude.{IsOf, TakesPlainly};
ghost use Rattle.routing_tree.specs.Chosen.{AreStatesOf, IsChosen, IsShorterOf, LooksDownAt, LooksUpAt, best_at, better_of, weighed};
ghost use Rattle.routing_tree.specs.Links.{HasLists, list_at};
ghost use Rattle.routing_tree.specs.Trees.{HasPlaces, IsShort};

use crate::tree::{Placed, RoutingTree};
use net_names::Rel;
use policy_laws::{RoutePolicy, View};

/// The best offer so far, and the place of who makes it.
#[derive(Clone, Copy)]
pub struct Best {
    /// What is seen of it.
    pub view: View,
    /// The place.
    pub place: usize,
}

// The shortest path of a provider so far, and the place of the provider. No path is as long as the largest length, which
// stands where there is none yet.
#[derive(Clone, Copy)]
struct Shortest {
    length: u32,
    place: usize,
}

// The better one of the best so far and of another one that the policy may accept.
#[inline(always)]
fn better<P: RoutePolicy>(own: &P, best: Option<Best>, new: Best) -> Option<Best>
    ensures { result ≡ better_of (P.meaning own.now) best new }
{
    if !own.accepts(&new.view) {
        return best;
    }
    match best {
        None => Some(new),
        Some(old) => {
            let wins = own.before(&new.view, &old.view);
            if wins { Some(new) } else { Some(old) }
        }
    }
}

impl RoutingTree {
    // The better one of the best so far and of the offer of the AS at a place, which is this to the one that chooses, if it
    // holds something.
    #[inline(always)]
    fn weigh<P: RoutePolicy>(
        &self,
        placed: &Placed<'_, P>,
        own: &P,
        from: usize,
        rel: Rel,
        best: Option<Best>,
    ) -> Option<Best>
        requires places { HasPlaces (length placed.now.ases.now) self.now }
        requires short { IsShort self.now }
        requires inside { from < length placed.now.ases.now }
        ensures { result ≡ weighed (P.meaning own.now) placed.now.ases.now self.now best rel from }
    {
        let length = self.lengths[from];
        if length == 0 {
            return best;
        }
        let view = View {
            rel,
            neighbour: placed.ases[from],
            length: length + 1,
            state: self.states[from],
            otc: None,
        };
        better(own, best, Best { view, place: from })
    }

    // Whether an own or a customer's route is held at a place, if any.
    #[inline(always)]
    fn is_low(&self, at: usize) -> bool
        requires { at < length self.now.lows.items }
        ensures { result ≡ false → slice_get self.now.lows.items at ≢ Some true }
    {
        self.lows[at]
    }

    // The same for the offer of a peer, if that is an own or a customer's route.
    #[inline(always)]
    fn weigh_peer<P: RoutePolicy>(
        &self,
        placed: &Placed<'_, P>,
        own: &P,
        from: usize,
        best: Option<Best>,
    ) -> Option<Best>
        requires places { HasPlaces (length placed.now.ases.now) self.now }
        requires short { IsShort self.now }
        requires inside { from < length placed.now.ases.now }
        ensures low { slice_get self.now.lows.items from ≡ Some true →
            result ≡ weighed (P.meaning own.now) placed.now.ases.now self.now best Peer from }
        ensures other { slice_get self.now.lows.items from ≢ Some true → result ≡ best }
    {
        if !self.lows[from] {
            return best;
        }
        self.weigh(placed, own, from, Rel::Peer, best)
    }

    // The one of the shortest path so far and that of the AS at a place that comes first, where that holds something.
    #[inline(always)]
    fn shorter<P>(&self, placed: &Placed<'_, P>, old: Shortest, from: usize) -> Shortest
        requires places { HasPlaces (length placed.now.ases.now) self.now }
        requires inside { from < length placed.now.ases.now }
        requires known { old.place < length placed.now.ases.now }
        ensures { IsShorterOf placed.now.ases.now self.now from old result }
    {
        let length = self.lengths[from];
        if length == 0 {
            return old;
        }
        if old.length < length {
            return old;
        }
        let new = Shortest {
            length,
            place: from,
        };
        if length < old.length {
            return new;
        }
        let other = placed.ases[old.place].get();
        let asn = placed.ases[from].get();
        if asn < other {
            return new;
        }
        old
    }

    /// The best offer of the customers of the AS at a place.
    pub(crate) fn best_customer<P: RoutePolicy>(
        &self,
        placed: &Placed<'_, P>,
        own: &P,
        at: usize,
    ) -> Option<Best>
        requires places { HasPlaces (length placed.now.ases.now) self.now }
        requires lists { HasLists (length placed.now.ases.now) placed.now.links.now }
        requires short { IsShort self.now }
        requires inside { at < length placed.now.ases.now }
        ensures { IsDistinct nat_eq placed.now.ases.now →
            IsChosen (P.meaning own.now) placed.now.ases.now self.now (LooksUpAt placed.now.links.now at) result }
    {
        let mut best: Option<Best> = None;
        for customer in placed.links.customers.list(at) {
            best = self.weigh(placed, own, *customer as usize, Rel::Customer, best);
        }
        best
    }

    /// The best offer of the peers that hold an own or a customer's route, and of the providers, of the AS at a place.
    #[inline(never)]
    pub(crate) fn best_other<P: RoutePolicy>(
        &self,
        placed: &Placed<'_, P>,
        own: &P,
        at: usize,
    ) -> Option<Best>
        requires places { HasPlaces (length placed.now.ases.now) self.now }
        requires lists { HasLists (length placed.now.ases.now) placed.now.links.now }
        requires short { IsShort self.now }
        requires inside { at < length placed.now.ases.now }
        ensures { IsDistinct nat_eq placed.now.ases.now →
            IsChosen (P.meaning own.now) placed.now.ases.now self.now
            (LooksDownAt self.now placed.now.links.now at) result }
    {
        let mut best: Option<Best> = None;
        for peer in placed.links.peers.list(at) {
            best = self.weigh_peer(placed, own, *peer as usize, best);
        }
        for provider in placed.links.providers.list(at) {
            best = self.weigh(placed, own, *provider as usize, Rel::Provider, best);
        }
        best
    }

    /// Whether a peer of the AS at a place may hold an own or a customer's route.
    #[inline(always)]
    pub(crate) fn has_low_peer<P>(&self, placed: &Placed<'_, P>, at: usize) -> bool
        requires places { HasPlaces (length placed.now.ases.now) self.now }
        requires lists { HasLists (length placed.now.ases.now) placed.now.links.now }
        requires inside { at < length placed.now.ases.now }
        ensures { result ≡ false → (j : ℕ) → occurs j (list_at placed.now.links.now.peers at) ≡ true →
            slice_get self.now.lows.items j ≢ Some true }
    {
        for peer in placed.links.peers.list(at) {
            let low = self.is_low(*peer as usize);
            if low {
                return true;
            }
        }
        false
    }

    /// The provider of the AS at a place with the shortest path, and of equal ones that with the lowest number: its place,
    /// if a provider holds something. A policy that takes providers' offers plainly chooses it where no peer holds an own
    /// or a customer's route.
    #[inline(always)]
    pub(crate) fn shortest_provider<P>(&self, placed: &Placed<'_, P>, at: usize) -> Option<usize>
        requires places { HasPlaces (length placed.now.ases.now) self.now }
        requires lists { HasLists (length placed.now.ases.now) placed.now.links.now }
        requires short { IsShort self.now }
        requires inside { at < length placed.now.ases.now }
        ensures { (p : Policy) (all : Option AState) → TakesPlainly p (IsOf all) → AreStatesOf all self.now →
            IsDistinct nat_eq placed.now.ases.now →
            ((j : ℕ) → occurs j (list_at placed.now.links.now.peers at) ≡ true →
            slice_get self.now.lows.items j ≢ Some true) →
            IsChosen p placed.now.ases.now self.now (LooksDownAt self.now placed.now.links.now at)
            (option_map (best_at placed.now.ases.now self.now) result) }
    {
        let mut shortest = Shortest {
            length: u32::MAX,
            place: at,
        };
        for provider in placed.links.providers.list(at) {
            shortest = self.shorter(placed, shortest, *provider as usize);
        }
        if shortest.length == u32::MAX {
            return None;
        }
        Some(shortest.place)
    }
}
