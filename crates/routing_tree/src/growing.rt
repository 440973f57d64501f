//! How a tree grows.

ghost use Rattle.std.specs.Prelude.{◌≡◌, ◌<◌, ◌≤◌, ◌+◌, ◌⊎◌, ℕ, Option, None, Some, All, false, length, nat_eq, option_map, slice_index};
ghost use Rattle.std.specs.List.{IsDistinct};
ghost use Rattle.as_graph.specs.Topology.{Topology};
ghost use Rattle.as_graph.specs.declared.build.TheConstants.{MOST_ASES};
ghost use Rattle.net_names.specs.declared.routes.State.{State as AState};
ghost use Rattle.policy_laws.specs.Policy.{Policy};
ghost use Rattle.policy_laws.specs.Prelude.{IsOf};
ghost use Rattle.stability_laws.specs.declared.entry.Seed.{Seed};
ghost use Rattle.routing_tree.specs.declared.choosing.Best.{Best};
ghost use Rattle.routing_tree.specs.Cases.{Case, IsCaseOf, IsDownTo, IsUpTo};
ghost use Rattle.routing_tree.specs.Chosen.{AreStatesOf, IsChosen, LooksDownAt, state_at};
ghost use Rattle.routing_tree.specs.Links.{HasLists};
ghost use Rattle.routing_tree.specs.Placed.{AreSeedsAt, IsPlaced};
ghost use Rattle.routing_tree.specs.Puts.{AreAtMost, AreSown, CanGrow, IsPut};
ghost use Rattle.routing_tree.specs.Trees.{HasPlaces, IsGrown, IsShort};

use crate::tree::{Placed, PlacedSeed, RoutingTree};
use net_names::State;
use policy_laws::{RoutePolicy, Stance};

// Whether a state is given, and not this one.
fn differs(all: Option<State>, state: State) -> bool
    ensures { result ≡ false → (all ≡ None) ⊎ (all ≡ Some state) }
{
    match all {
        None => false,
        Some(old) => old != state,
    }
}

// The state that all these have, if it is one.
fn state_of_all(seeds: &[PlacedSeed]) -> Option<State>
    ensures { All (λ s. IsOf result s.state) seeds.now }
{
    let mut all: Option<State> = None;
    for seed in seeds {
        if differs(all, seed.state) {
            return None;
        }
        all = Some(seed.state);
    }
    all
}

impl RoutingTree {
    // Puts this at a place.
    #[inline(always)]
    fn put(&mut self, at: usize, size: u32, low: bool, state: State, parent: u32)
        requires places { HasPlaces (length self.old.lengths.items) self.old }
        requires inside { at < length self.old.lengths.items }
        ensures places { HasPlaces (length self.old.lengths.items) self.new }
        ensures put { IsPut self.old self.new at size low state parent }
    {
        self.lengths[at] = size;
        self.lows[at] = low;
        self.states[at] = state;
        self.parents[at] = parent;
    }

    // Puts at a place what its AS has from the one at another place.
    #[inline(always)]
    fn take(&mut self, at: usize, from: usize, low: bool)
        requires places { HasPlaces (length self.old.lengths.items) self.old }
        requires inside { at < length self.old.lengths.items }
        requires from_inside { from < length self.old.lengths.items }
        requires few { length self.old.lengths.items ≤ MOST_ASES }
        requires short { IsShort self.old }
        ensures places { HasPlaces (length self.old.lengths.items) self.new }
        ensures put { IsPut self.old self.new at (slice_index self.old.lengths.items from + 1) low
            (state_at self.old from) from }
    {
        let size = self.lengths[from] + 1;
        let state = self.states[from];
        self.put(at, size, low, state, from as u32);
    }

    // Empties the tree but for the announcers.
    fn plant(&mut self, seeds: &[PlacedSeed])
        requires places { HasPlaces (length self.old.lengths.items) self.old }
        requires inside { All (λ s. s.place < length self.old.lengths.items) seeds.now }
        ensures places { HasPlaces (length self.old.lengths.items) self.new }
        ensures sown { AreSown seeds.now (length seeds.now) self.new }
    {
        self.lengths.as_mut_slice().fill(0);
        self.lows.as_mut_slice().fill(false);
        for seed in seeds {
            self.put(seed.place as usize, 1, true, seed.state, seed.place);
        }
    }

    // The step upwards of the AS at a place: unless it announces the prefix, it takes the best offer of its customers.
    #[inline(always)]
    fn step_up<P: RoutePolicy>(&mut self, placed: &Placed<'_, P>, at: usize)
        requires can { CanGrow placed.now }
        requires places { HasPlaces (length placed.now.ases.now) self.old }
        requires inside { at < length placed.now.ases.now }
        requires short { IsShort self.old }
        ensures places { HasPlaces (length placed.now.ases.now) self.new }
        ensures most { (m : ℕ) → AreAtMost m self.old → AreAtMost (m + 1) self.new }
        ensures states { (all : Option AState) → AreStatesOf all self.old → AreStatesOf all self.new }
        ensures step { (c : Case) → IsCaseOf P.meaning c placed.now → IsUpTo c placed.now.ases.now at self.old →
            IsUpTo c placed.now.ases.now (at + 1) self.new }
    {
        if self.lengths[at] != 0 {
            return;
        }
        let own = &placed.policies[at];
        let Some(best) = self.best_customer(placed, own, at) else {
            return;
        };
        self.take(at, best.place, true);
    }

    // Customers' routes go up.
    fn go_up<P: RoutePolicy>(&mut self, placed: &Placed<'_, P>)
        requires can { CanGrow placed.now }
        requires places { HasPlaces (length placed.now.ases.now) self.old }
        requires short { AreAtMost 1 self.old }
        ensures places { HasPlaces (length placed.now.ases.now) self.new }
        ensures short { AreAtMost (length placed.now.ases.now + 1) self.new }
        ensures states { (all : Option AState) → AreStatesOf all self.old → AreStatesOf all self.new }
        ensures up { (c : Case) → IsCaseOf P.meaning c placed.now → IsUpTo c placed.now.ases.now 0 self.old →
            IsUpTo c placed.now.ases.now (length placed.now.ases.now) self.new }
    {
        for at in 0..placed.ases.len() {
            self.step_up(placed, at);
        }
    }

    // From whom the AS at a place, which holds nothing after the pass upwards, takes its route downwards: the place, if it
    // takes one. Its customers were looked at upwards.
    #[inline(always)]
    fn choose_down<P: RoutePolicy>(
        &self,
        placed: &Placed<'_, P>,
        own: &P,
        all: Option<State>,
        at: usize,
    ) -> Option<usize>
        requires can { CanGrow placed.now }
        requires places { HasPlaces (length placed.now.ases.now) self.now }
        requires inside { at < length placed.now.ases.now }
        requires short { IsShort self.now }
        requires states { AreStatesOf all self.now }
        ensures { (best : Option Best) × IsChosen (P.meaning own.now) placed.now.ases.now self.now
            (LooksDownAt self.now placed.now.links.now at) best × (result ≡ option_map (λ b. b.place) best) }
    {
        match own.stance(all) {
            Stance::Nothing => None,
            Stance::Plain if !self.has_low_peer(placed, at) => self.shortest_provider(placed, at),
            _ => match self.best_other(placed, own, at) {
                Some(best) => Some(best.place),
                None => None,
            },
        }
    }

    // The step downwards of the AS at a place, if it holds nothing.
    #[inline(always)]
    fn step_down<P: RoutePolicy>(&mut self, placed: &Placed<'_, P>, all: Option<State>, at: usize)
        requires can { CanGrow placed.now }
        requires places { HasPlaces (length placed.now.ases.now) self.old }
        requires inside { at < length placed.now.ases.now }
        requires short { IsShort self.old }
        requires states { AreStatesOf all self.old }
        ensures places { HasPlaces (length placed.now.ases.now) self.new }
        ensures most { (m : ℕ) → AreAtMost m self.old → AreAtMost (m + 1) self.new }
        ensures states { AreStatesOf all self.new }
        ensures step { (c : Case) → IsCaseOf P.meaning c placed.now → IsDownTo c placed.now.ases.now (at + 1) self.old →
            IsDownTo c placed.now.ases.now at self.new }
    {
        if self.lengths[at] != 0 {
            return;
        }
        let own = &placed.policies[at];
        let Some(from) = self.choose_down(placed, own, all, at) else {
            return;
        };
        self.take(at, from, false);
    }

    // Peers' routes go across and providers' routes down, to those that hold nothing yet.
    fn go_down<P: RoutePolicy>(&mut self, placed: &Placed<'_, P>, all: Option<State>)
        requires can { CanGrow placed.now }
        requires places { HasPlaces (length placed.now.ases.now) self.old }
        requires short { AreAtMost (length placed.now.ases.now + 1) self.old }
        requires states { AreStatesOf all self.old }
        ensures places { HasPlaces (length placed.now.ases.now) self.new }
        ensures down { (c : Case) → IsCaseOf P.meaning c placed.now →
            IsDownTo c placed.now.ases.now (length placed.now.ases.now) self.old →
            IsDownTo c placed.now.ases.now 0 self.new }
    {
        let mut left = placed.ases.len();
        while left > 0 {
            left -= 1;
            self.step_down(placed, all, left);
        }
    }

    /// The tree becomes that of the one stable routing of a prefix that these ASes announce, whatever it was. It takes no
    /// memory.
    pub fn grow<P: RoutePolicy>(&mut self, placed: &Placed<'_, P>, seeds: &[PlacedSeed])
        requires few { length placed.now.ases.now ≤ MOST_ASES }
        requires apart { IsDistinct nat_eq placed.now.ases.now }
        requires places { HasPlaces (length placed.now.ases.now) self.old }
        requires policies { length placed.now.policies.now ≡ length placed.now.ases.now }
        requires lists { HasLists (length placed.now.ases.now) placed.now.links.now }
        requires inside { All (λ s. s.place < length placed.now.ases.now) seeds.now }
        ensures places { HasPlaces (length placed.now.ases.now) self.new }
        ensures grown { (g : Topology) (policy : ℕ → Policy) (state : ℕ → AState) (announced : ℕ → Option Seed) →
            IsPlaced P.meaning g policy placed.now → AreSeedsAt g state announced placed.now.ases.now seeds.now →
            IsGrown g policy state announced placed.now.ases.now self.new }
    {
        let all = state_of_all(seeds);
        self.plant(seeds);
        self.go_up(placed);
        self.go_down(placed, all);
    }
}
