//! One step of an AS.

ghost use Rattle.std.specs.Prelude.{◌≡◌, ◌+◌};
ghost use Rattle.route_choice.specs.PrefixWorlds.{AreGiversAt, CanStepAt, HasNoLoopsIn};
ghost use Rattle.route_choice.specs.Visits.{IsVisitAt, LeavesSteps, NewCellIsHeld};

use crate::choosing::evaluate_among;
use crate::settling::settle_chosen;
use crate::{Overlay, PlacedAs, PrefixWorld, Steps, Turn};
use as_graph::Neighbour;
use path_pool::PathPool;
use policy_laws::{OriginStates, RoutePolicy};
use std::sync::ledger::Ledger;

/// One step of an AS: it chooses as by [`evaluate`](crate::evaluate), and the entry is put as by
/// [`settle`](crate::settle). Answers whether it is another one than before. Where the turn says that
/// no path may go through the AS, no offer of the part has one that does. Takes no memory.
pub fn visit<P: RoutePolicy, V: OriginStates, L: Ledger>(
    at: &PrefixWorld<'_, P, V>,
    pool: &mut PathPool,
    overlay: &mut Overlay,
    turn: Turn,
    steps: &mut Steps<L>,
) -> bool
    requires can { CanStepAt at.now pool.old overlay.old 1 }
    requires no_loops { HasNoLoopsIn P.meaning at.now pool.old overlay.old turn }
    ensures cost { steps.new ≡ steps.old + 1 }
    ensures visit { IsVisitAt P.meaning V.state_of at.now pool.old pool.new overlay.old overlay.new turn result }
    ensures live { NewCellIsHeld at.now pool.old pool.new overlay.new turn.asn }
    ensures next { LeavesSteps at.now pool.old pool.new overlay.old overlay.new }
{
    let neighbours = at.graph.neighbours_near(turn.asn, turn.place);
    let places = at.graph.neighbour_places(turn.place);
    visit_among(at, pool, overlay, turn, neighbours, places, steps)
}

/// One step of an AS, as [`visit`] makes it, that looks only at these neighbours. All that export to the
/// AS what they hold, and that the part looks at, are among them. The places, in the order of the
/// neighbours, say where each was last found in the table, and are hints.
pub fn visit_among<P: RoutePolicy, V: OriginStates, L: Ledger>(
    at: &PrefixWorld<'_, P, V>,
    pool: &mut PathPool,
    overlay: &mut Overlay,
    turn: Turn,
    neighbours: &[Neighbour],
    places: &[u32],
    steps: &mut Steps<L>,
) -> bool
    requires can { CanStepAt at.now pool.old overlay.old 1 }
    requires givers { AreGiversAt P.meaning at.now pool.old overlay.old turn.part turn.asn neighbours.now }
    requires no_loops { HasNoLoopsIn P.meaning at.now pool.old overlay.old turn }
    ensures cost { steps.new ≡ steps.old + 1 }
    ensures visit { IsVisitAt P.meaning V.state_of at.now pool.old pool.new overlay.old overlay.new turn result }
    ensures live { NewCellIsHeld at.now pool.old pool.new overlay.new turn.asn }
    ensures next { LeavesSteps at.now pool.old pool.new overlay.old overlay.new }
{
    let Turn { asn, place, .. } = turn;
    let chosen = evaluate_among(at, pool, overlay, turn, neighbours, places, steps);
    settle_chosen(at, pool, overlay, PlacedAs { asn, place }, chosen)
}
