//! The best of the offers that an AS gets, found by one pass over its neighbours.

ghost use Rattle.std.specs.Prelude.{◌≡◌, ℕ, ◌<◌, true, false, Option, None, Some, IfSome, option_map, if◌then◌else◌};
ghost use Rattle.as_graph.specs.Prelude.{relation};
ghost use Rattle.net_names.specs.Prelude.{occurs, last_or, converse};
ghost use Rattle.path_pool.specs.Pool.{IsLive, list_of};
ghost use Rattle.stability_laws.specs.Prelude.{policy_at, offer_given, IsBestView, better_of, setting};
ghost use Rattle.route_choice.specs.declared.held.Held.{Held as AHeld};
ghost use Rattle.route_choice.specs.Tables.{joined, prefix_of};
ghost use Rattle.route_choice.specs.Routings.{entry_of, routing_of};
ghost use Rattle.route_choice.specs.Choices.{is_looked_at, offers_of, state_seen, IsGiven};
ghost use Rattle.route_choice.specs.PrefixWorlds.{AreGiversAt, HasNoLoopsAt, HasNoLoopsIn};
ghost use Rattle.route_choice.specs.Resources.{AreLive};

use crate::looks::held_near;
use crate::{Held, Overlay, Part, PrefixWorld, Turn};
use as_graph::Neighbour;
use net_names::{Asn, Rel, State, place_at};
use path_pool::{PathId, PathPool};
use policy_laws::{OriginStates, RoutePolicy, View};
use stability_laws::number_sent;

// Whether the part looks at the offers of such neighbours.
fn looks_at(part: Part, rel: Rel) -> bool
    ensures { result ≡ is_looked_at part rel }
{
    match part {
        Part::Up => rel == Rel::Customer,
        Part::Whole => true,
    }
}

// The state of the prefix with the path's origin, where it is asked for.
fn state_of<P, V: OriginStates>(
    at: &PrefixWorld<'_, P, V>,
    reads: bool,
    pool: &PathPool,
    path: PathId,
) -> State
    requires { IsLive pool.now path.0 }
    ensures { result ≡ state_seen reads (V.state_of at.now.states.now (prefix_of at.now.table.now))
        (last_or 0 (list_of pool.now path.0)) }
{
    if reads {
        at.states.state(at.table.prefix(), pool.last(path))
    } else {
        State::NotFound
    }
}

/// The best view so far, if there is one, what its neighbour holds, and the place where the neighbour was last
/// found, which is a hint.
#[derive(Drop)]
pub(crate) struct Best {
    pub(crate) view: Option<View>,
    pub(crate) given: Option<Held>,
    pub(crate) place: usize,
}

// The AS that chooses: its policy, whether that reads states, whether a path may go through the AS, and which
// offers it looks at.
#[derive(Drop)]
struct Chooser<'a, P> {
    asn: Asn,
    own: &'a P,
    reads: bool,
    may_loop: bool,
    part: Part,
}

// What a neighbour holds and exports, with the policy of the neighbour and the place where it was last found,
// which is a hint.
#[derive(Drop)]
struct Given<'a, P> {
    neighbour: &'a Neighbour,
    place: usize,
    held: Held,
    sender: &'a P,
}

// The view of what a neighbour holds and exports, where the policy of the AS accepts it. Whether the
// path goes through the AS is not asked here.
#[inline(always)]
fn view_of<P: RoutePolicy, V: OriginStates>(
    at: &PrefixWorld<'_, P, V>,
    chooser: &Chooser<'_, P>,
    pool: &PathPool,
    given: &Given<'_, P>,
) -> Option<View>
    requires live { IsLive pool.now given.now.held.path.0 }
    requires exported { (P.meaning given.now.sender.now).exports given.now.held.class given.now.held.otc
        (converse given.now.neighbour.now.rel) ≡ true }
    ensures view { (a : ℕ) → option_map (λ o. o.view)
        (offer_given (P.meaning given.now.sender.now) (P.meaning chooser.now.own.now)
        (state_seen chooser.now.reads (V.state_of at.now.states.now (prefix_of at.now.table.now)))
        given.now.neighbour.now.asn a (Some given.now.neighbour.now.rel) (Some (entry_of pool.now given.now.held)))
        ≡ (if occurs a (list_of pool.now given.now.held.path.0) then None else result) }
    ensures neighbour { IfSome result (λ v. v.neighbour ≡ given.now.neighbour.now.asn) }
{
    let Neighbour { asn, rel } = *given.neighbour;
    let held = given.held;
    let view = View {
        rel,
        neighbour: asn,
        length: pool.length(held.path) + 1,
        state: state_of(at, chooser.reads, pool, held.path),
        otc: number_sent(given.sender.marks(), asn, rel.converse(), held.otc),
    };
    if chooser.own.accepts(&view) {
        Some(view)
    } else {
        None
    }
}

// Whether a path goes through the AS that chooses. It is walked only where it may.
fn goes_through<P>(chooser: &Chooser<'_, P>, pool: &PathPool, path: PathId) -> bool
    requires live { IsLive pool.now path.0 }
    requires no_loops { chooser.now.may_loop ≡ false → occurs chooser.now.asn (list_of pool.now path.0) ≡ false }
    ensures { result ≡ occurs chooser.now.asn (list_of pool.now path.0) }
{
    chooser.may_loop && pool.contains(path, chooser.asn)
}

// Whether a view comes before the best one so far and its path is not through the AS.
#[inline(always)]
fn is_better<P: RoutePolicy>(
    chooser: &Chooser<'_, P>,
    pool: &PathPool,
    best: &Option<View>,
    view: &View,
    path: PathId,
) -> bool
    requires live { IsLive pool.now path.0 }
    requires no_loops { chooser.now.may_loop ≡ false → occurs chooser.now.asn (list_of pool.now path.0) ≡ false }
    ensures { (if result then Some view.now else best.now)
        ≡ better_of (P.meaning chooser.now.own.now) best.now
        (if occurs chooser.now.asn (list_of pool.now path.0) then None else Some view.now) }
{
    let wins = match best {
        None => true,
        Some(old) => chooser.own.before(view, old),
    };
    wins && !goes_through(chooser, pool, path)
}

// Puts the view of what a neighbour holds in place of the best one so far, if it is better and the path is not
// through the AS.
#[inline(always)]
fn weigh<P: RoutePolicy>(
    chooser: &Chooser<'_, P>,
    pool: &PathPool,
    given: &Given<'_, P>,
    view: View,
    best: &mut Best,
)
    requires live { IsLive pool.now given.now.held.path.0 }
    requires no_loops { chooser.now.may_loop ≡ false →
        occurs chooser.now.asn (list_of pool.now given.now.held.path.0) ≡ false }
    requires neighbour { view.neighbour ≡ given.now.neighbour.now.asn }
    ensures view { best.new.view ≡ better_of (P.meaning chooser.now.own.now) best.old.view
        (if occurs chooser.now.asn (list_of pool.now given.now.held.path.0) then None else Some view) }
    ensures given { (f : ℕ → Option AHeld) → f given.now.neighbour.now.asn ≡ Some given.now.held →
        IsGiven f best.old.view best.old.given → IsGiven f best.new.view best.new.given }
{
    if is_better(chooser, pool, &best.view, &view, given.held.path) {
        best.view = Some(view);
        best.given = Some(given.held);
        best.place = given.place;
    }
}

// Puts the view of the offer that a neighbour makes in place of the best one so far, if the part
// looks at it and it is better. The place where the neighbour may stand is a hint.
#[inline(always)]
fn look_at<P: RoutePolicy, V: OriginStates>(
    at: &PrefixWorld<'_, P, V>,
    chooser: &Chooser<'_, P>,
    pool: &PathPool,
    overlay: &Overlay,
    neighbour: &Neighbour,
    place: usize,
    best: &mut Best,
)
    requires linked { relation at.now.graph.now chooser.now.asn neighbour.now.asn ≡ Some neighbour.now.rel }
    requires live { AreLive pool.now at.now.table.now overlay.now }
    requires no_loops { chooser.now.may_loop ≡ false →
        HasNoLoopsAt P.meaning at.now pool.now overlay.now chooser.now.part chooser.now.asn }
    requires own { chooser.now.own.now ≡ policy_at at.now.book.now chooser.now.asn }
    ensures view { best.new.view ≡ better_of (P.meaning (policy_at at.now.book.now chooser.now.asn)) best.old.view
        (option_map (λ o. o.view) (offers_of chooser.now.part
        (setting P.meaning at.now.graph.now at.now.book.now
        (state_seen chooser.now.reads (V.state_of at.now.states.now (prefix_of at.now.table.now))))
        (routing_of pool.now at.now.table.now overlay.now) chooser.now.asn neighbour.now.asn)) }
    ensures given { IsGiven (joined at.now.table.now overlay.now) best.old.view best.old.given →
        IsGiven (joined at.now.table.now overlay.now) best.new.view best.new.given }
{
    if !looks_at(chooser.part, neighbour.rel) {
        return;
    }
    let Some(held) = held_near(at.table, overlay, neighbour.asn, place) else {
        return;
    };
    let sender = at.book.policy_near(neighbour.asn, place);
    if !sender.exports(held.class, held.otc, neighbour.rel.converse()) {
        return;
    }
    let given = Given {
        neighbour,
        place,
        held,
        sender,
    };
    if let Some(view) = view_of(at, chooser, pool, &given) {
        weigh(chooser, pool, &given, view, best);
    }
}

/// The view of the best offer of the part, if there is an offer, where all that make one are among these
/// neighbours. The places, in the order of the neighbours, are hints. Where `reads` is not set, no state is
/// asked for.
#[inline(always)]
pub(crate) fn best_view<P: RoutePolicy, V: OriginStates>(
    at: &PrefixWorld<'_, P, V>,
    reads: bool,
    pool: &PathPool,
    overlay: &Overlay,
    turn: Turn,
    neighbours: &[Neighbour],
    places: &[u32],
) -> Best
    requires givers { AreGiversAt P.meaning at.now pool.now overlay.now turn.part turn.asn neighbours.now }
    requires live { AreLive pool.now at.now.table.now overlay.now }
    requires no_loops { HasNoLoopsIn P.meaning at.now pool.now overlay.now turn }
    ensures best { IsBestView (P.meaning (policy_at at.now.book.now turn.asn))
        (λ n. offers_of turn.part (setting P.meaning at.now.graph.now at.now.book.now
        (state_seen reads (V.state_of at.now.states.now (prefix_of at.now.table.now))))
        (routing_of pool.now at.now.table.now overlay.now) turn.asn n) result.view }
    ensures given { IsGiven (joined at.now.table.now overlay.now) result.view result.given }
{
    let chooser = Chooser {
        asn: turn.asn,
        own: at.book.policy_near(turn.asn, turn.place),
        reads,
        may_loop: turn.may_loop,
        part: turn.part,
    };
    let mut best = Best {
        view: None,
        given: None,
        place: 0,
    };
    for (index, neighbour) in neighbours.iter().enumerate() {
        let place = place_at(places, index);
        look_at(at, &chooser, pool, overlay, neighbour, place, &mut best);
    }
    best
}
