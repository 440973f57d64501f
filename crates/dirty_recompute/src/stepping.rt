//! One step of an AS whose entry may be wrong after an edit, and which of its neighbours may be left
//! alone after it.

ghost use Rattle.std.specs.Prelude.{◌≡◌, ◌≢◌, ◌+◌, ◌↔◌, IsTrue, None, true, false, OnOk, OnErr, IfOk, option_map};
ghost use Rattle.path_pool.specs.declared.pool.PathPool.{PathPool as APool};
ghost use Rattle.stability_laws.specs.Prelude.{low};
ghost use Rattle.route_choice.specs.Prelude.{setting_at, HasNoLoopsAt, entry_of, routing_of, seeds_of};
ghost use Rattle.dirty_recompute.specs.Steps.{after, decided_by, ChangesOnly, IsChosen, IsReady, without_low};
ghost use Rattle.dirty_recompute.specs.Giving.{SameHeld};
ghost use Rattle.dirty_recompute.specs.Resources.{has_change, CanTurn, IsKept, IsPaidFor, IsBefore};
ghost use Rattle.dirty_recompute.specs.Turns.{MayBeLeft};

use crate::after_step::{AfterStep, Stepped};
use crate::giving::{give_chosen, held_near};
use crate::spared::{has_rival, may_be_over};
use as_graph::links_are_sound;
use net_names::{Asn, Class, NoMemory};
use path_pool::PathPool;
use policy_laws::{OriginStates, RoutePolicy};
use route_choice::{
    Choice, Held, Overlay, Part, PlacedAs, PrefixWorld, Steps, Turn, evaluate_near,
    view_but_for_loops,
};
use stability_laws::{offer_path, one_answer};
use std::sync::ledger::Ledger;

// Whether a choice is to hold nothing.
fn is_nothing(choice: Choice) -> bool
    ensures { IsTrue result ↔ (choice ≡ Choice.Nothing) }
{
    match choice {
        Choice::Nothing => true,
        Choice::Seed | Choice::Via { .. } => false,
    }
}

// Whether an entry is held that no customer and no seed gave.
fn is_high(held: &Option<Held>) -> bool
    ensures stays { result ≡ true → (p : APool) → low (option_map (entry_of p) held.now) ≡ None }
    ensures goes { result ≡ false → (p : APool) →
        without_low (low (option_map (entry_of p) held.now)) (option_map (entry_of p) held.now) ≡ None }
{
    match held {
        Some(entry) => match entry.class {
            Class::Origin | Class::Customer => false,
            Class::Peer | Class::Provider => true,
        },
        None => false,
    }
}

// Whether an entry is held that a customer or a seed gave.
fn is_low(held: &Option<Held>) -> bool
    ensures yes { result ≡ true → (p : APool) → low (option_map (entry_of p) held.now) ≢ None }
    ensures no { result ≡ false → (p : APool) → low (option_map (entry_of p) held.now) ≡ None }
{
    match held {
        Some(entry) => match entry.class {
            Class::Origin | Class::Customer => true,
            Class::Peer | Class::Provider => false,
        },
        None => false,
    }
}

// Of the offers of a part those that decide, given what the AS holds.
fn deciding(part: Part, held: &Option<Held>) -> Part
    ensures { (p : APool) → result ≡ decided_by part (low (option_map (entry_of p) held.now)) }
{
    if is_low(held) { Part::Up } else { part }
}

// Whether an AS that is to take nothing keeps what it holds: upwards it keeps what no customer and no seed
// gave it.
fn stays(part: Part, held: &Option<Held>) -> bool
    ensures stays { result ≡ true → (p : APool) →
        after part None (option_map (entry_of p) held.now) ≡ option_map (entry_of p) held.now }
    ensures goes { result ≡ false → (p : APool) → after part None (option_map (entry_of p) held.now) ≡ None }
{
    match part {
        Part::Up => is_high(held),
        Part::Whole => false,
    }
}

/// A step: the AS takes its seed, or the best of the offers that the step looks at, or nothing. Upwards, where
/// there is neither, it gives up an Origin or Customer entry, and keeps another one. In a step over all offers an AS
/// that holds an Origin or Customer entry looks at its customers' offers alone, since these decide. Where the turn
/// says that no path may go through the AS, no offer that it looks at has one that does. After a refusal it holds
/// what it held.
pub(crate) fn step<P: RoutePolicy, V: OriginStates, L: Ledger>(
    at: &PrefixWorld<'_, P, V>,
    pool: &mut PathPool,
    overlay: &mut Overlay,
    turn: &Turn,
    steps: &mut Steps<L>,
) -> Result<Stepped, NoMemory>
    requires can { CanTurn pool.old at.now.seeds.now at.now.table.now overlay.old }
    requires ready { IsReady turn.now.part (setting_at P.meaning V.state_of at.now) (seeds_of pool.old at.now.seeds.now)
        (routing_of pool.old at.now.table.now overlay.old) overlay.old turn.now.asn }
    requires no_loops { turn.now.may_loop ≡ false → HasNoLoopsAt P.meaning at.now pool.old overlay.old
        (decided_by turn.now.part (low (routing_of pool.old at.now.table.now overlay.old turn.now.asn))) turn.now.asn }
    ensures chosen { IfOk result (λ r. IsChosen turn.now.part (setting_at P.meaning V.state_of at.now)
        (seeds_of pool.old at.now.seeds.now) turn.now.asn (routing_of pool.old at.now.table.now overlay.old)
        (routing_of pool.new at.now.table.now overlay.new) r.nothing) }
    ensures only { OnOk result (ChangesOnly turn.now.asn (routing_of pool.old at.now.table.now overlay.old)
        (routing_of pool.new at.now.table.now overlay.new) (has_change overlay.old) (has_change overlay.new)) }
    ensures changed { IfOk result (λ r. IsTrue r.changed → has_change overlay.new turn.now.asn ≡ true) }
    ensures unchanged { IfOk result (λ r. r.changed ≡ false →
        routing_of pool.new at.now.table.now overlay.new turn.now.asn
        ≡ routing_of pool.old at.now.table.now overlay.old turn.now.asn) }
    ensures before { IfOk result (λ r. IsBefore pool.new at.now.table.now overlay.new turn.now.asn r.before
        (routing_of pool.old at.now.table.now overlay.old)) }
    ensures cost { OnOk result (steps.new ≡ steps.old + 1) }
    ensures paid { OnOk result (IsPaidFor pool.old pool.new (routing_of pool.old at.now.table.now overlay.old)
        (routing_of pool.new at.now.table.now overlay.new) turn.now.asn) }
    ensures kept { IsKept pool.old pool.new at.now.seeds.now overlay.old overlay.new }
    ensures refused { OnErr result (SameHeld pool.old pool.new at.now.table.now overlay.old overlay.new) }
{
    one_answer::<P>();
    let asn = turn.asn;
    let place = at.graph.place_near(asn, turn.place);
    let before = held_near(at.table, overlay, asn, place);
    let part = deciding(turn.part, &before);
    let decides = Turn {
        asn,
        place,
        may_loop: turn.may_loop,
        part,
    };
    let chosen = evaluate_near(at, pool, overlay, decides, steps);
    let nothing = is_nothing(chosen.choice);
    if nothing && stays(part, &before) {
        return Ok(Stepped {
            place,
            before,
            changed: false,
            nothing,
        });
    }
    let changed = give_chosen(at, pool, overlay, asn, place, &before, chosen)?;
    Ok(Stepped {
        place,
        before,
        changed,
        nothing,
    })
}

/// Whether a neighbour of an AS that has made a step need not choose anew. The place where its row may
/// stand is a hint. It takes no memory.
pub(crate) fn is_left<P: RoutePolicy, V: OriginStates>(
    after: &AfterStep<'_, P, V>,
    neighbour: Asn,
    near: usize,
) -> bool
    ensures { IsTrue result → MayBeLeft P.meaning V.state_of after.now neighbour }
{
    offer_path::<P>();
    links_are_sound();
    let world = after.world;
    let (at, stepped) = (&world.at, after.stepped);
    if at.seeds.get(neighbour).is_some() {
        return true;
    }
    let place = at.graph.place_near(neighbour, near);
    let have = held_near(at.table, after.overlay, neighbour, place);
    if may_be_over(after.pool, &have, &stepped.before) {
        return false;
    }
    let Some(rel) = at.graph.rel(neighbour, after.asn) else {
        return true;
    };
    let now = held_near(at.table, after.overlay, after.asn, stepped.place);
    let giver = PlacedAs {
        asn: after.asn,
        place: stepped.place,
    };
    let receiver = PlacedAs {
        asn: neighbour,
        place,
    };
    match view_but_for_loops(at, after.pool, giver, receiver, rel, now) {
        Some(view) => has_rival(
            at,
            after.pool,
            after.overlay,
            after.asn,
            &receiver,
            &have,
            &view,
        ),
        None => true,
    }
}
