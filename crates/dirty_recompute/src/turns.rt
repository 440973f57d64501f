//! One turn of an AS: its step, and the neighbours that are to choose anew after it.

ghost use Rattle.std.specs.Prelude.{◌≡◌, ◌⊎◌, ◌+◌, true, false, Some, IsTrue, OnOk};
ghost use Rattle.net_names.specs.declared.routes.Rel.TheVariants as rel;
ghost use Rattle.as_graph.specs.Prelude.{relation};
ghost use Rattle.stability_laws.specs.Prelude.{low};
ghost use Rattle.route_choice.specs.Prelude.{setting_at, HasNoLoopsAt, routing_of, seeds_of};
ghost use Rattle.dirty_recompute.specs.PlannedRanks.{rank_of};
ghost use Rattle.dirty_recompute.specs.Queues.{IsAdded, AreQueued, IsAmong};
ghost use Rattle.dirty_recompute.specs.Resources.{has_change, CanTurn, IsKept, IsPaidFor};
ghost use Rattle.dirty_recompute.specs.Steps.{decided_by, IsReady};
ghost use Rattle.dirty_recompute.specs.Turns.{IsTurn, MayBeLeft};

use crate::after_step::AfterStep;
use crate::crowding::row_at;
use crate::queue::{Queue, Queues};
use crate::ranked_world::RankedWorld;
use crate::stepping::{is_left, step};
use as_graph::Neighbour;
use net_names::{NoMemory, Rel};
use path_pool::PathPool;
use policy_laws::{OriginStates, RoutePolicy};
use route_choice::{Overlay, Part, Steps, Turn};
use std::sync::ledger::Ledger;

// A neighbour, and where its row may stand in the graph.
#[derive(Clone, Copy)]
struct PlacedNeighbour {
    neighbour: Neighbour,
    row: usize,
}

// Whether a neighbour need not choose anew. Where many wait, nobody is left out, since that asks for more
// than a step costs.
fn is_left_out<P: RoutePolicy, V: OriginStates>(
    after: &AfterStep<'_, P, V>,
    placed: &PlacedNeighbour,
    queue: &Queue,
) -> bool
    ensures { IsTrue result → MayBeLeft P.meaning V.state_of after.now placed.now.neighbour.asn }
{
    if queue.is_crowded() {
        return false;
    }
    is_left(after, placed.neighbour.asn, placed.row)
}

// Puts the neighbour into the queue if it has the wanted relation to the AS and may have to choose anew.
fn queue_one<P: RoutePolicy, V: OriginStates>(
    after: &AfterStep<'_, P, V>,
    placed: &PlacedNeighbour,
    wanted: Rel,
    queue: &mut Queue,
) -> Result<(), NoMemory>
    ensures { OnOk result (AreQueued (rank_of after.now.world.now.ranks) queue.old queue.new
        (λ b. (b ≡ placed.now.neighbour.asn) × (placed.now.neighbour.rel ≡ wanted))
        (MayBeLeft P.meaning V.state_of after.now)) }
{
    if placed.neighbour.rel == wanted {
        if !is_left_out(after, placed, queue) {
            let world = after.world;
            let asn = placed.neighbour.asn;
            queue.add(world.at.graph, &world.ranks, asn, placed.row)?;
        }
    }
    Ok(())
}

// Puts the neighbours into the queue that have the wanted relation to the AS, but for those that need not choose anew.
fn queue_those<P: RoutePolicy, V: OriginStates>(
    after: &AfterStep<'_, P, V>,
    neighbours: &[Neighbour],
    wanted: Rel,
    queue: &mut Queue,
) -> Result<(), NoMemory>
    ensures { OnOk result (AreQueued (rank_of after.now.world.now.ranks) queue.old queue.new
        (IsAmong neighbours.now wanted) (MayBeLeft P.meaning V.state_of after.now)) }
{
    let world = after.world;
    let rows = world.at.graph.neighbour_places(after.stepped.place);
    for (index, neighbour) in neighbours.iter().enumerate() {
        let placed = PlacedNeighbour {
            neighbour: *neighbour,
            row: row_at(rows, index) as usize,
        };
        queue_one(after, &placed, wanted, queue)?;
    }
    Ok(())
}

// Puts the AS into the queue downwards, if it has no seed and no offer of a customer.
fn queue_itself<P, V>(after: &AfterStep<'_, P, V>, queue: &mut Queue) -> Result<(), NoMemory>
    ensures { OnOk result (IsAdded (rank_of after.now.world.now.ranks) queue.old queue.new
        (λ b. (b ≡ after.now.asn) × (after.now.stepped.nothing ≡ true))) }
{
    let (world, stepped) = (after.world, after.stepped);
    if stepped.nothing {
        queue.add(world.at.graph, &world.ranks, after.asn, stepped.place)?;
    }
    Ok(())
}

// Puts providers into the queue upwards, and peers and customers into the one downwards, but for those that
// need not choose anew.
fn queue_around<P: RoutePolicy, V: OriginStates>(
    after: &AfterStep<'_, P, V>,
    queues: &mut Queues,
) -> Result<(), NoMemory>
    ensures up { OnOk result (AreQueued (rank_of after.now.world.now.ranks) queues.old.up queues.new.up
        (λ b. (relation after.now.world.now.at.graph.now after.now.asn b ≡ Some rel.Provider) ×
        (after.now.stepped.changed ≡ true))
        (MayBeLeft P.meaning V.state_of after.now)) }
    ensures whole { OnOk result (AreQueued (rank_of after.now.world.now.ranks) queues.old.whole queues.new.whole
        (λ b. ((relation after.now.world.now.at.graph.now after.now.asn b ≡ Some rel.Customer) ⊎
        (relation after.now.world.now.at.graph.now after.now.asn b ≡ Some rel.Peer)) ×
        (after.now.stepped.changed ≡ true))
        (MayBeLeft P.meaning V.state_of after.now)) }
{
    let (world, stepped) = (after.world, after.stepped);
    if stepped.changed {
        let near = world.at.graph.neighbours_near(after.asn, stepped.place);
        queue_those(after, near, Rel::Provider, &mut queues.up)?;
        queue_those(after, near, Rel::Peer, &mut queues.whole)?;
        queue_those(after, near, Rel::Customer, &mut queues.whole)?;
    }
    Ok(())
}

// Puts customers into the queue downwards, but for those that need not choose anew.
fn queue_customers<P: RoutePolicy, V: OriginStates>(
    after: &AfterStep<'_, P, V>,
    whole: &mut Queue,
) -> Result<(), NoMemory>
    ensures { OnOk result (AreQueued (rank_of after.now.world.now.ranks) whole.old whole.new
        (λ b. (relation after.now.world.now.at.graph.now after.now.asn b ≡ Some rel.Customer) ×
        (after.now.stepped.changed ≡ true))
        (MayBeLeft P.meaning V.state_of after.now)) }
{
    let (world, stepped) = (after.world, after.stepped);
    if stepped.changed {
        let near = world.at.graph.neighbours_near(after.asn, stepped.place);
        queue_those(after, near, Rel::Customer, whole)?;
    }
    Ok(())
}

/// A turn of an AS that is out of the queue, upwards or over all offers, with a step as by [`step`]. After a
/// refusal the paths and the holds are still those of the table and the overlay.
pub(crate) fn turn<P: RoutePolicy, V: OriginStates, L: Ledger>(
    world: &RankedWorld<'_, P, V>,
    pool: &mut PathPool,
    overlay: &mut Overlay,
    turn: &Turn,
    queues: &mut Queues,
    steps: &mut Steps<L>,
) -> Result<(), NoMemory>
    requires can { CanTurn pool.old world.now.at.seeds.now world.now.at.table.now overlay.old }
    requires ready { IsReady turn.now.part (setting_at P.meaning V.state_of world.now.at)
        (seeds_of pool.old world.now.at.seeds.now) (routing_of pool.old world.now.at.table.now overlay.old)
        overlay.old turn.now.asn }
    requires no_loops { turn.now.may_loop ≡ false → HasNoLoopsAt P.meaning world.now.at pool.old overlay.old
        (decided_by turn.now.part (low (routing_of pool.old world.now.at.table.now overlay.old turn.now.asn)))
        turn.now.asn }
    ensures turn { OnOk result (IsTurn turn.now.part (setting_at P.meaning V.state_of world.now.at)
        (seeds_of pool.old world.now.at.seeds.now) (rank_of world.now.ranks) turn.now.asn
        (routing_of pool.old world.now.at.table.now overlay.old)
        (routing_of pool.new world.now.at.table.now overlay.new) (has_change overlay.old) (has_change overlay.new)
        queues.old queues.new) }
    ensures cost { OnOk result (steps.new ≡ steps.old + 1) }
    ensures paid { OnOk result (IsPaidFor pool.old pool.new (routing_of pool.old world.now.at.table.now overlay.old)
        (routing_of pool.new world.now.at.table.now overlay.new) turn.now.asn) }
    ensures kept { IsKept pool.old pool.new world.now.at.seeds.now overlay.old overlay.new }
{
    let stepped = step(&world.at, pool, overlay, turn, steps)?;
    let after = AfterStep {
        world,
        pool: &*pool,
        overlay: &*overlay,
        asn: turn.asn,
        stepped,
    };
    match turn.part {
        Part::Up => {
            queue_itself(&after, &mut queues.whole)?;
            queue_around(&after, queues)?;
            Ok(())
        }
        Part::Whole => {
            queue_customers(&after, &mut queues.whole)?;
            Ok(())
        }
    }
}
