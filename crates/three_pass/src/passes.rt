//! The two passes along a course. The rows and places of ASes are hints.
//!
//! An AS takes a step upwards only if it has a seed or was told something, and downwards only if it holds nothing. It looks
//! at its providers and at those that told it, so that only an AS that holds something goes along its links of peers.

ghost use Rattle.std.specs.Prelude.{◌≡◌, ◌≢◌, ℕ, true, false, Some, None, length, slice_get, ◌<◌, ◌≤◌, ◌+◌, Option, All};
ghost use Rattle.net_names.specs.Prelude.{occurs};
ghost use Rattle.net_names.specs.declared.routes.Rel.{Rel as ARel};
ghost use Rattle.net_names.specs.declared.routes.Rel.TheVariants.{Customer};
ghost use Rattle.policy_laws.specs.declared.policy.Stance.TheVariants.{Nothing, Plain};
ghost use Rattle.policy_laws.specs.Prelude.{IsOf};
ghost use Rattle.as_graph.specs.Prelude.{relation, asns};
ghost use Rattle.stability_laws.specs.Prelude.{IsStable};
ghost use Rattle.route_choice.specs.Prelude.{joined, setting_at, AreGiversAt, HasLoopsFromAt, IsStepOf, routing_of, seeds_of, CanStep, is_among, is_named, AreNamed};
ghost use Rattle.three_pass.specs.Lists.{count_of, list_at};
ghost use Rattle.three_pass.specs.Origins.{AreHeldOf, AreSeedsOf};
ghost use Rattle.three_pass.specs.Passings.{CanPass, HasPassed, IsPassing, IsReady, IsVisitIn, order_of, routing_in, seeds_in};
ghost use Rattle.three_pass.specs.Progress.{AfterUp};
ghost use Rattle.three_pass.specs.Telling.{HaveTold, TellsOn};
ghost use Rattle.three_pass.specs.Told.{AreTrue, IsTold};

use crate::course::Course;
use crate::looks::Looks;
use crate::pass::{Gathered, Passing};
use crate::told::{Told, holds};
use as_graph::Neighbour;
use net_names::{Asn, place_at};
use path_pool::PathPool;
use policy_laws::{OriginStates, RoutePolicy, Stance};
use route_choice::{
    NamedSet, Overlay, Part, PlacedAs, Steps, Turn, may_loop_among, visit, visit_among,
    visit_providers,
};
use std::sync::ledger::Ledger;

// Whether an AS has no seed, and no customer and no peer of it told it that it holds something.
fn has_none_to_take(told: &Told, named: &NamedSet, asn: Asn, place: usize) -> bool
    ensures { result ≡ true → (is_among named.now.asns asn ≡ false) × ((b : ℕ) → ¬ IsTold told.now asn b) }
{
    told.is_untold(asn, place) && !named.has(asn)
}

// Puts into the list those that may make the AS at a place of the order an offer: its providers, and who
// told it that it holds something. The answer is whether all of them are there.
fn gather(course: &Course, place: usize, told: &Told, asn: Asn, looks: &mut Looks) -> bool
    requires { place < count_of course.now.above }
    ensures each { result ≡ true → (w : ℕ → ℕ → Option ARel) → AreTrue w told.now →
        All (λ x. w asn x.asn ≡ Some x.rel) (list_at course.now.above place) →
        All (λ x. w asn x.asn ≡ Some x.rel) looks.new.neighbours.items }
    ensures told { result ≡ true → (b : ℕ) → IsTold told.now asn b → occurs b (asns looks.new.neighbours.items) ≡ true }
    ensures above { result ≡ true → (n : ℕ) → occurs n (asns (list_at course.now.above place)) ≡ true →
        occurs n (asns looks.new.neighbours.items) ≡ true }
{
    looks.clear();
    looks.put_all(course.above.list(place), course.above.places(place))
        && told.put_tellers(asn, place, looks)
}

// Whether an AS is not named, and by the stance at its place takes no offer.
#[inline(always)]
fn takes_none(stances: &[Stance], named: bool, place: usize) -> bool
    ensures { result ≡ true → (named ≡ false) × (slice_get stances.now place ≡ Some Nothing) }
{
    if named {
        return false;
    }
    match stances.get(place) {
        Some(Stance::Nothing) => true,
        _ => false,
    }
}

// Whether the stance at a place is plain.
#[inline(always)]
fn is_plain_at(stances: &[Stance], place: usize) -> bool
    ensures { result ≡ true → slice_get stances.now place ≡ Some Plain }
{
    match stances.get(place) {
        Some(Stance::Plain) => true,
        _ => false,
    }
}

// Whether an AS is not named and was told nothing, and the stance at its place is plain.
#[inline(always)]
fn is_plainly_untold(told: &Told, stances: &[Stance], named: bool, asn: Asn, place: usize) -> bool
    ensures unnamed { result ≡ true → named ≡ false }
    ensures plain { result ≡ true → slice_get stances.now place ≡ Some Plain }
    ensures untold { result ≡ true → (b : ℕ) → ¬ IsTold told.now asn b }
{
    !named && is_plain_at(stances, place) && told.is_untold(asn, place)
}

impl<P: RoutePolicy, V: OriginStates> Passing<'_, '_, P, V> {
    // A step of an AS, as `visit_among` makes it, that looks only at these neighbours. Paths are walked in search
    // of the AS only if one of them may go through it.
    fn step_among<L: Ledger>(
        &self,
        pool: &mut PathPool,
        overlay: &mut Overlay,
        turn: Turn,
        neighbours: &[Neighbour],
        places: &[u32],
        steps: &mut Steps<L>,
    ) -> bool
        requires can { CanStep pool.old self.now.at.seeds.now self.now.at.table.now overlay.old 1 }
        requires givers { AreGiversAt P.meaning self.now.at pool.old overlay.old turn.part turn.asn neighbours.now }
        requires loops { HasLoopsFromAt P.meaning self.now.at pool.old overlay.old turn.part turn.asn
            (is_named self.now.named turn.asn) }
        requires unnamed { turn.may_loop ≡ false → (origin : ℕ) → is_named self.now.named turn.asn origin ≡ false }
        ensures cost { steps.new ≡ steps.old + 1 }
        ensures visit { IsVisitIn P.meaning V.state_of self.now turn.part pool.old pool.new overlay.old overlay.new
            turn.asn result }
    {
        let at = &self.at;
        let may_loop = turn.may_loop
            && may_loop_among(at, &self.named, pool, overlay, &turn, neighbours, places);
        let exact = Turn { may_loop, ..turn };
        visit_among(at, pool, overlay, exact, neighbours, places, steps)
    }

    // A step of the AS at a place of the order, as `visit` makes it, that looks only at its providers and at
    // those that told it that they hold something, if these are known. Most are told nothing.
    fn step<L: Ledger>(
        &self,
        gathered: &mut Gathered<'_>,
        pool: &mut PathPool,
        overlay: &mut Overlay,
        turn: Turn,
        steps: &mut Steps<L>,
    ) -> bool
        requires ready { IsReady P.meaning V.state_of self.now gathered.old.told pool.old overlay.old turn.part
            turn.asn turn.place }
        requires nothing { routing_in self.now pool.old overlay.old turn.asn ≡ None }
        requires unnamed { turn.may_loop ≡ false → (origin : ℕ) → is_named self.now.named turn.asn origin ≡ false }
        ensures cost { steps.new ≡ steps.old + 1 }
        ensures visit { IsVisitIn P.meaning V.state_of self.now turn.part pool.old pool.new overlay.old overlay.new
            turn.asn result }
        ensures told { gathered.new.told ≡ gathered.old.told }
    {
        let told = &gathered.told;
        let looks = &mut gathered.looks;
        if told.is_untold(turn.asn, turn.place) {
            let above = self.course.above.list(turn.place);
            let above_places = self.course.above.places(turn.place);
            return self.step_among(pool, overlay, turn, above, above_places, steps);
        }
        if gather(self.course, turn.place, told, turn.asn, looks) {
            let neighbours = looks.neighbours.as_slice();
            let places = looks.places.as_slice();
            self.step_among(pool, overlay, turn, neighbours, places, steps)
        } else {
            let row = place_at(&self.course.order.places, turn.place);
            let by_row = Turn { place: row, ..turn };
            visit(&self.at, pool, overlay, by_row, steps)
        }
    }

    // A step upwards of the AS at a place of the order, which tells its peers and its providers if it holds
    // something then.
    #[inline(never)]
    fn step_and_tell<L: Ledger>(
        &self,
        gathered: &mut Gathered<'_>,
        pool: &mut PathPool,
        overlay: &mut Overlay,
        placed: PlacedAs,
        steps: &mut Steps<L>,
    ) -> bool
        requires ready { IsReady P.meaning V.state_of self.now gathered.old.told pool.old overlay.old Part.Up
            placed.asn placed.place }
        requires nothing { routing_in self.now pool.old overlay.old placed.asn ≡ None }
        ensures cost { steps.new ≡ steps.old + 1 }
        ensures visit { IsVisitIn P.meaning V.state_of self.now Part.Up pool.old pool.new overlay.old overlay.new
            placed.asn result }
        ensures told { TellsOn (relation self.now.at.graph.now) (routing_in self.now pool.new overlay.new) placed.asn
            gathered.old.told gathered.new.told }
    {
        let PlacedAs { asn, place } = placed;
        let may_loop = self.named.has(asn);
        let turn = Turn {
            asn,
            place,
            may_loop,
            part: Part::Up,
        };
        let taken = self.step(gathered, pool, overlay, turn, steps);
        let row = place_at(&self.course.order.places, place);
        let at = &self.at;
        gathered
            .told
            .add_holder(at.graph, asn, row, place, at.table, overlay);
        taken
    }

    // The step upwards of the AS at a place of the order, which tells its peers and its providers if it holds
    // something then. An AS that has no seed, and was told nothing or takes no offer, takes none.
    #[inline(always)]
    fn step_up<L: Ledger>(
        &self,
        gathered: &mut Gathered<'_>,
        pool: &mut PathPool,
        overlay: &mut Overlay,
        placed: PlacedAs,
        steps: &mut Steps<L>,
    )
        requires ready { IsReady P.meaning V.state_of self.now gathered.old.told pool.old overlay.old Part.Up
            placed.asn placed.place }
        requires nothing { routing_in self.now pool.old overlay.old placed.asn ≡ None }
        requires room { CanPass self.now pool.old overlay.old }
        ensures cost { steps.new ≤ steps.old + 1 }
        ensures step { IsStepOf Part.Up (setting_at P.meaning V.state_of self.now.at) (seeds_in self.now pool.old)
            (routing_in self.now pool.old overlay.old) placed.asn (routing_in self.now pool.new overlay.new) }
        ensures told { TellsOn (relation self.now.at.graph.now) (routing_in self.now pool.new overlay.new) placed.asn
            gathered.old.told gathered.new.told }
        ensures room { CanPass self.now pool.new overlay.new }
        ensures spent { HasPassed self.now pool.old pool.new overlay.old overlay.new }
    {
        if has_none_to_take(&gathered.told, &self.named, placed.asn, placed.place) {
            return;
        }
        let may_loop = self.named.has(placed.asn);
        if takes_none(self.stances, may_loop, placed.place) {
            return;
        }
        self.step_and_tell(gathered, pool, overlay, placed, steps);
    }

    // Customers' routes go up, and an AS that holds one tells its peers and its providers.
    #[inline(never)]
    pub fn go_up<L: Ledger>(
        &self,
        gathered: &mut Gathered<'_>,
        pool: &mut PathPool,
        overlay: &mut Overlay,
        steps: &mut Steps<L>,
    )
        requires passing { IsPassing P.meaning self.now }
        requires empty { (a : ℕ) → joined self.now.at.table.now overlay.old a ≡ None }
        requires seeded { AreSeedsOf (IsOf self.now.all) (setting_at P.meaning V.state_of self.now.at).state
            (seeds_in self.now pool.old) }
        requires named { AreNamed (is_named self.now.named) (seeds_in self.now pool.old) }
        requires true_notes { AreTrue (relation self.now.at.graph.now) gathered.old.told }
        requires room { CanPass self.now pool.old overlay.old }
        ensures cost { steps.new ≤ steps.old + length (order_of self.now) }
        ensures done { AfterUp (setting_at P.meaning V.state_of self.now.at) (seeds_in self.now pool.old)
            (order_of self.now) (routing_in self.now pool.new overlay.new) }
        ensures origins { AreHeldOf (IsOf self.now.all) (setting_at P.meaning V.state_of self.now.at).state
            (routing_in self.now pool.new overlay.new) }
        ensures told { (b n : ℕ) (r : ARel) → occurs b (order_of self.now) ≡ true →
            routing_in self.now pool.new overlay.new b ≢ None → relation self.now.at.graph.now b n ≡ Some r →
            r ≢ Customer → IsTold gathered.new.told n b }
        ensures true_notes { AreTrue (relation self.now.at.graph.now) gathered.new.told }
        ensures room { CanPass self.now pool.new overlay.new }
        ensures spent { HasPassed self.now pool.old pool.new overlay.old overlay.new }
    {
        for place in 0..self.course.order.ases.len() {
            let asn = self.course.order.ases[place];
            let next = PlacedAs { asn, place };
            self.step_up(gathered, pool, overlay, next, steps);
        }
    }

    // The step downwards of the AS at a place of the order. An AS that holds something, and is right with it,
    // takes none, and so does one that has no seed and takes no offer.
    fn step_down<L: Ledger>(
        &self,
        gathered: &mut Gathered<'_>,
        pool: &mut PathPool,
        overlay: &mut Overlay,
        placed: PlacedAs,
        steps: &mut Steps<L>,
    ) -> bool
        requires ready { IsReady P.meaning V.state_of self.now gathered.old.told pool.old overlay.old Part.Whole
            placed.asn placed.place }
        requires held { routing_in self.now pool.old overlay.old placed.asn ≢ None →
            IsStepOf Part.Whole (setting_at P.meaning V.state_of self.now.at) (seeds_in self.now pool.old)
            (routing_in self.now pool.old overlay.old) placed.asn (routing_in self.now pool.old overlay.old) }
        ensures cost { steps.new ≤ steps.old + 1 }
        ensures visit { IsVisitIn P.meaning V.state_of self.now Part.Whole pool.old pool.new overlay.old overlay.new
            placed.asn result }
        ensures told { gathered.new.told ≡ gathered.old.told }
    {
        let PlacedAs { asn, place } = placed;
        if holds(self.at.table, overlay, asn, place) {
            return false;
        }
        let may_loop = self.named.has(asn);
        if is_plainly_untold(&gathered.told, self.stances, may_loop, asn, place) {
            let above = self.course.above.list(place);
            let above_places = self.course.above.places(place);
            return visit_providers(&self.at, pool, overlay, placed, above, above_places, steps);
        }
        if takes_none(self.stances, may_loop, place) {
            return false;
        }
        let turn = Turn {
            asn,
            place,
            may_loop,
            part: Part::Whole,
        };
        self.step(gathered, pool, overlay, turn, steps)
    }

    // Peers' routes go across and providers' routes down, to those that hold nothing yet.
    #[inline(never)]
    pub fn go_down<L: Ledger>(
        &self,
        gathered: &mut Gathered<'_>,
        pool: &mut PathPool,
        overlay: &mut Overlay,
        steps: &mut Steps<L>,
    )
        requires passing { IsPassing P.meaning self.now }
        requires true_notes { AreTrue (relation self.now.at.graph.now) gathered.old.told }
        requires told { (a : ℕ) → HaveTold (IsTold gathered.old.told) (setting_at P.meaning V.state_of self.now.at)
            (routing_in self.now pool.old overlay.old) a }
        requires named { AreNamed (is_named self.now.named) (seeds_in self.now pool.old) }
        requires origins { AreHeldOf (IsOf self.now.all) (setting_at P.meaning V.state_of self.now.at).state
            (routing_in self.now pool.old overlay.old) }
        requires seeded { AreSeedsOf (IsOf self.now.all) (setting_at P.meaning V.state_of self.now.at).state
            (seeds_in self.now pool.old) }
        requires up { AfterUp (setting_at P.meaning V.state_of self.now.at) (seeds_in self.now pool.old)
            (order_of self.now) (routing_in self.now pool.old overlay.old) }
        requires room { CanPass self.now pool.old overlay.old }
        ensures cost { steps.new ≤ steps.old + length (order_of self.now) }
        ensures done { IsStable (setting_at P.meaning V.state_of self.now.at) (seeds_in self.now pool.old)
            (routing_in self.now pool.new overlay.new) }
        ensures room { CanPass self.now pool.new overlay.new }
        ensures spent { HasPassed self.now pool.old pool.new overlay.old overlay.new }
    {
        let mut left = self.course.order.ases.len();
        while left > 0 {
            left -= 1;
            let asn = self.course.order.ases[left];
            let next = PlacedAs { asn, place: left };
            self.step_down(gathered, pool, overlay, next, steps);
        }
    }
}
