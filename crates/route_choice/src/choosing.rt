//! What an AS chooses.

ghost use Rattle.std.specs.Prelude.{◌≡◌, ◌+◌};
ghost use Rattle.stability_laws.specs.Prelude.{policy_at};
ghost use Rattle.route_choice.specs.Routings.{routing_of, seeds_of};
ghost use Rattle.route_choice.specs.PrefixWorlds.{setting_at, AreGiversAt, HasNoLoopsIn};
ghost use Rattle.route_choice.specs.Choices.{offers_of, IsChoice, IsChosenGiven};
ghost use Rattle.route_choice.specs.Tables.{joined};
ghost use Rattle.route_choice.specs.Resources.{AreLive};

use crate::best::{Best, best_view};
use crate::choice::Chosen;
use crate::{Choice, ChoiceNear, Overlay, Part, PrefixWorld, Steps, Turn};
use as_graph::Neighbour;
use net_names::Asn;
use path_pool::PathPool;
use policy_laws::{OriginStates, RoutePolicy};
use std::sync::ledger::Ledger;

// What an AS chooses, in one step, where all that make it an offer of the part are among these neighbours.
// The places, in the order of the neighbours, are hints.
#[inline(always)]
pub(crate) fn evaluate_among<P: RoutePolicy, V: OriginStates, L: Ledger>(
    at: &PrefixWorld<'_, P, V>,
    pool: &PathPool,
    overlay: &Overlay,
    turn: Turn,
    neighbours: &[Neighbour],
    places: &[u32],
    steps: &mut Steps<L>,
) -> Chosen
    requires live { AreLive pool.now at.now.table.now overlay.now }
    requires givers { AreGiversAt P.meaning at.now pool.now overlay.now turn.part turn.asn neighbours.now }
    requires no_loops { HasNoLoopsIn P.meaning at.now pool.now overlay.now turn }
    ensures choice { IsChoice (P.meaning (policy_at at.now.book.now turn.asn))
        (seeds_of pool.now at.now.seeds.now turn.asn)
        (λ n. offers_of turn.part (setting_at P.meaning V.state_of at.now)
        (routing_of pool.now at.now.table.now overlay.now) turn.asn n) result.near.choice }
    ensures given { IsChosenGiven (joined at.now.table.now overlay.now) result.near.choice result.given }
    ensures cost { steps.new ≡ steps.old + 1 }
{
    steps.tick();
    if at.seeds.get(turn.asn).is_some() {
        let near = ChoiceNear {
            choice: Choice::Seed,
            place: 0,
        };
        return Chosen { near, given: None };
    }
    let reads = at.book.policy_near(turn.asn, turn.place).reads_state();
    let Best { view, given, place } = best_view(at, reads, pool, overlay, turn, neighbours, places);
    match view {
        Some(view) => Chosen {
            near: ChoiceNear {
                choice: Choice::Via {
                    neighbour: view.neighbour,
                    rel: view.rel,
                },
                place,
            },
            given,
        },
        None => Chosen {
            near: ChoiceNear {
                choice: Choice::Nothing,
                place,
            },
            given,
        },
    }
}

/// What an AS chooses, in one step: its seed, or else the best offer of the part, or nothing. The
/// offers are those of the table with the changes in place. Where the turn says that no path may go
/// through the AS, no offer of the part has one that does. Takes no memory.
pub fn evaluate_near<P: RoutePolicy, V: OriginStates, L: Ledger>(
    at: &PrefixWorld<'_, P, V>,
    pool: &PathPool,
    overlay: &Overlay,
    turn: Turn,
    steps: &mut Steps<L>,
) -> ChoiceNear
    requires live { AreLive pool.now at.now.table.now overlay.now }
    requires no_loops { HasNoLoopsIn P.meaning at.now pool.now overlay.now turn }
    ensures choice { IsChoice (P.meaning (policy_at at.now.book.now turn.asn))
        (seeds_of pool.now at.now.seeds.now turn.asn)
        (λ n. offers_of turn.part (setting_at P.meaning V.state_of at.now)
        (routing_of pool.now at.now.table.now overlay.now) turn.asn n) result.choice }
    ensures cost { steps.new ≡ steps.old + 1 }
{
    let neighbours = at.graph.neighbours_near(turn.asn, turn.place);
    let places = at.graph.neighbour_places(turn.place);
    evaluate_among(at, pool, overlay, turn, neighbours, places, steps).near
}

/// What an AS chooses, in one step: its seed, or else the best offer of the part, or nothing. The
/// offers are those of the table with the changes in place. Takes no memory.
pub fn evaluate<P: RoutePolicy, V: OriginStates, L: Ledger>(
    at: &PrefixWorld<'_, P, V>,
    pool: &PathPool,
    overlay: &Overlay,
    asn: Asn,
    part: Part,
    steps: &mut Steps<L>,
) -> Choice
    requires { AreLive pool.now at.now.table.now overlay.now }
    ensures choice { IsChoice (P.meaning (policy_at at.now.book.now asn)) (seeds_of pool.now at.now.seeds.now asn)
        (λ n. offers_of part (setting_at P.meaning V.state_of at.now)
        (routing_of pool.now at.now.table.now overlay.now) asn n) result }
    ensures cost { steps.new ≡ steps.old + 1 }
{
    let turn = Turn {
        asn,
        place: at.graph.place_near(asn, 0),
        may_loop: true,
        part,
    };
    evaluate_near(at, pool, overlay, turn, steps).choice
}
