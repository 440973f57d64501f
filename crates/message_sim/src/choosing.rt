//! What an AS chooses once it has received a new message.
ghost use Rattle.std.specs.Prelude.{◌≡◌, Some, None, IfOk, IsTrue, option_map, option_copied};
ghost use Rattle.as_graph.specs.Prelude.{relation, AreNeighbours};
ghost use Rattle.stability_laws.specs.Prelude.{policy_at, passed_on, IsBestView};
ghost use Rattle.message_sim.specs.Rows.{received_at};
ghost use Rattle.message_sim.specs.Arrivals.{offers_before, offers_upon};
ghost use Rattle.message_sim.specs.Best.{received_with, IsChosen, IsChoiceAfter, IsNoWorse, IsKeptView};

use crate::arrival::Arrival;
use crate::line::Line;
use crate::route::Route;
use as_graph::Neighbour;
use indexmap::IndexMap;
use net_names::{Asn, NoMemory, Rel};
use policy_laws::{OriginStates, RoutePolicy, View};
use stability_laws::{better, carried, class_from, offered_view};
use std::alloc::Global;

/// What an AS newly holds, and the view of the offer that it comes from.
#[derive(Drop)]
pub struct Choice {
    pub(crate) best: Option<View>,
    pub(crate) held: Option<Route>,
}

// What was received last over a link.
fn received_over(lines: &IndexMap<(Asn, Asn), Line>, from: Asn, to: Asn) -> Option<&Route>
    ensures { option_copied result ≡ received_at lines.now.entries from to }
{
    match lines.get(&(from, to)) {
        Some(line) => line.received.as_ref(),
        None => None,
    }
}

// What the receiver has received last of `n`, once it has received the message.
fn heard<'a, P, V>(arrival: &Arrival<'a, P, V>, n: Asn) -> Option<&'a Route>
    ensures { option_copied result ≡
        received_with (λ m. received_at arrival.now.lines.now.entries m arrival.now.to) arrival.now.from
        (option_copied arrival.now.message) n }
{
    if n == arrival.from {
        arrival.message
    } else {
        received_over(arrival.lines, n, arrival.to)
    }
}

// The view of the offer that a neighbour makes, where it makes one.
fn view_from<P: RoutePolicy, V: OriginStates>(
    arrival: &Arrival<'_, P, V>,
    neighbour: &Neighbour,
) -> Option<View>
    requires { relation arrival.now.ground.now.graph.now arrival.now.to neighbour.now.asn ≡ Some neighbour.now.rel }
    ensures { result ≡ option_map (λ o. o.view) (offers_upon P.meaning V.state_of arrival.now neighbour.now.asn) }
{
    let held = heard(arrival, neighbour.asn)?;
    offered_view(
        arrival.ground.book.policy(neighbour.asn),
        arrival.ground.book.policy(arrival.to),
        arrival.ground.states,
        arrival.ground.prefix,
        neighbour,
        arrival.to,
        held.entry(),
    )
}

// The view of the best offer of all neighbours, where one makes an offer.
fn best_of_all<P: RoutePolicy, V: OriginStates>(
    arrival: &Arrival<'_, P, V>,
    neighbours: &[Neighbour],
) -> Option<View>
    requires { AreNeighbours (relation arrival.now.ground.now.graph.now) arrival.now.to neighbours.now }
    ensures { IsBestView (P.meaning (policy_at arrival.now.ground.now.book.now arrival.now.to))
        (offers_upon P.meaning V.state_of arrival.now) result }
{
    let own = arrival.ground.book.policy(arrival.to);
    let mut best: Option<View> = None;
    for neighbour in neighbours {
        let view = view_from(arrival, neighbour);
        best = better(own, best, view);
    }
    best
}

// Whether the new view is there and comes before the old one, or is the old one.
fn is_no_worse<P: RoutePolicy>(policy: &P, old: &View, new: &Option<View>) -> bool
    ensures { IsTrue result → IsNoWorse (P.meaning policy.now) old.now new.now }
{
    match new {
        Some(view) => *view == *old || policy.before(view, old),
        None => false,
    }
}

// The view of the best offer once the message has been received, given that of the best one before. All
// offers are looked at only where the best one was of this neighbour and has become worse.
fn best_after<P: RoutePolicy, V: OriginStates>(
    arrival: &Arrival<'_, P, V>,
    rel: Rel,
    best: Option<View>,
) -> Option<View>
    requires linked { relation arrival.now.ground.now.graph.now arrival.now.to arrival.now.from ≡ Some rel }
    requires best { IsBestView (P.meaning (policy_at arrival.now.ground.now.book.now arrival.now.to))
        (offers_before P.meaning V.state_of arrival.now) best }
    ensures { IsBestView (P.meaning (policy_at arrival.now.ground.now.book.now arrival.now.to))
        (offers_upon P.meaning V.state_of arrival.now) result }
{
    let own = arrival.ground.book.policy(arrival.to);
    let sender = Neighbour {
        asn: arrival.from,
        rel,
    };
    let new = view_from(arrival, &sender);
    match best {
        None => new,
        Some(old) => {
            if old.neighbour != arrival.from {
                return better(own, Some(old), new);
            }
            if is_no_worse(own, &old, &new) {
                return new;
            }
            best_of_all(arrival, arrival.ground.graph.neighbours(arrival.to))
        }
    }
}

// What an AS holds of an entry of `n`, which is `rel` to it.
fn held_of<P: RoutePolicy>(
    alloc: Global,
    sender: &P,
    receiver: &P,
    n: Asn,
    a: Asn,
    rel: Rel,
    given: &Route,
) -> Result<Route, NoMemory>
    ensures { IfOk result (λ h. h ≡
        passed_on (P.meaning sender.now).marks (P.meaning receiver.now).marks n a rel given.now) }
{
    let entry = given.entry();
    let otc = carried(sender, receiver, n, rel.converse(), entry.otc);
    Route::put_before(alloc, class_from(rel), a, entry.path.as_slice(), otc)
}

// What an AS holds where this is the view of its best offer.
fn held_by_view<P: RoutePolicy, V: OriginStates>(
    alloc: Global,
    arrival: &Arrival<'_, P, V>,
    best: Option<View>,
) -> Result<Option<Route>, NoMemory>
    requires { IsBestView (P.meaning (policy_at arrival.now.ground.now.book.now arrival.now.to))
        (offers_upon P.meaning V.state_of arrival.now) best }
    ensures { IfOk result (IsChosen (P.meaning (policy_at arrival.now.ground.now.book.now arrival.now.to))
        (offers_upon P.meaning V.state_of arrival.now) best) }
{
    let Some(view) = best else {
        return Ok(None);
    };
    let n = view.neighbour;
    match heard(arrival, n) {
        Some(given) => {
            let held = held_of(
                alloc,
                arrival.ground.book.policy(n),
                arrival.ground.book.policy(arrival.to),
                n,
                arrival.to,
                view.rel,
                given,
            )?;
            Ok(Some(held))
        }
        None => Ok(None),
    }
}

// Whether the best view is as before, and is not that of this neighbour.
fn is_kept(from: Asn, old: &Option<View>, new: &Option<View>) -> bool
    ensures { IsTrue result → IsKeptView from old.now new.now }
{
    match (old, new) {
        (None, None) => true,
        (Some(old), Some(new)) => *old == *new && old.neighbour != from,
        (Some(_), None) | (None, Some(_)) => false,
    }
}

/// The new choice of an AS that has no seed, once it has received the message; `None` where the old one
/// stays.
pub(crate) fn choose<P: RoutePolicy, V: OriginStates>(
    alloc: Global,
    arrival: &Arrival<'_, P, V>,
    rel: Rel,
    best: Option<View>,
) -> Result<Option<Choice>, NoMemory>
    requires linked { relation arrival.now.ground.now.graph.now arrival.now.to arrival.now.from ≡ Some rel }
    requires best { IsBestView (P.meaning (policy_at arrival.now.ground.now.book.now arrival.now.to))
        (offers_before P.meaning V.state_of arrival.now) best }
    ensures { IfOk result (IsChoiceAfter (P.meaning (policy_at arrival.now.ground.now.book.now arrival.now.to))
        (offers_before P.meaning V.state_of arrival.now)
        (offers_upon P.meaning V.state_of arrival.now) best) }
{
    let after = best_after(arrival, rel, best);
    if is_kept(arrival.from, &best, &after) {
        return Ok(None);
    }
    let held = held_by_view(alloc, arrival, after)?;
    Ok(Some(Choice { best: after, held }))
}
