//! Who changes after an edit.

ghost use Rattle.std.specs.Prelude.{◌≡◌, ℕ, ◌+◌, None, OnOk, OnErr, IfOk};
ghost use Rattle.net_names.specs.Prelude.{occurs};
ghost use Rattle.as_graph.specs.Prelude.{relation, has};
ghost use Rattle.path_pool.specs.Pool.{limit_of};
ghost use Rattle.route_choice.specs.Prelude.{seeds_of, change_at};
ghost use Rattle.dirty_recompute.specs.Exact.{AreEnough};
ghost use Rattle.dirty_recompute.specs.Going.{AreExactIn, CanGo, GoesOnIn, HasGone};
ghost use Rattle.dirty_recompute.specs.Named.{HasAll};
ghost use Rattle.dirty_recompute.specs.PlannedRanks.{rank_of};
ghost use Rattle.dirty_recompute.specs.Plans.{CanPlan, IsPlanned};
ghost use Rattle.dirty_recompute.specs.Queues.{waits, HasRanks};
ghost use Rattle.dirty_recompute.specs.Resources.{has_change, IsKept, IsUndone, SameTable};
ghost use Rattle.dirty_recompute.specs.Work.{CanGoOn, IsRightBut};

use crate::clearing::{clear_all, holds_any};
use crate::laws::laws_hold;
use crate::named::Named;
use crate::planned_ranks::PlannedRanks;
use crate::prefix_edit::PrefixEdit;
use crate::queue::{Queue, Queues};
use crate::ranked_world::RankedWorld;
use crate::turns::turn;
use crate::way::Way;
use as_graph::{Graph, ranks_fit};
use net_names::{Asn, NoMemory};
use path_pool::PathPool;
use policy_laws::{OriginStates, RoutePolicy};
use route_choice::{Overlay, Part, PrefixWorld, Steps, Table, Turn};
use stability_laws::{World, one_stable_routing};
use std::alloc::Global;
use std::sync::ledger::Ledger;

// The touched ASes, each under its rank.
fn queue_of(
    alloc: Global,
    graph: &Graph,
    ranks: &PlannedRanks,
    touched: &[Asn],
) -> Result<Queue, NoMemory>
    ensures touched { IfOk result (λ q. (b : ℕ) → waits (rank_of ranks.now) q b ≡ occurs b touched.now) }
    ensures ranks { IfOk result (HasRanks (rank_of ranks.now)) }
{
    let mut queue = Queue::new(alloc, graph.row_of_first(touched));
    queue.add_all(graph, ranks, touched)?;
    Ok(queue)
}

// From the touched ASes upwards, by rising rank. Answers who is to choose among all offers.
fn go_up<P: RoutePolicy, V: OriginStates, L: Ledger>(
    alloc: Global,
    world: &RankedWorld<'_, P, V>,
    touched: &[Asn],
    named: &mut Named,
    pool: &mut PathPool,
    overlay: &mut Overlay,
    steps: &mut Steps<L>,
) -> Result<Queues, NoMemory>
    requires can { CanGo world.now named.old pool.old overlay.old }
    requires fresh { (b : ℕ) → change_at overlay.old b ≡ None }
    requires right { IsRightBut P.meaning V.state_of world.now.at pool.old touched.now }
    ensures done { IfOk result (λ q. (n : ℕ) × (steps.new ≡ steps.old + n) ×
        HasGone P.meaning V.state_of world.now touched.now pool.new overlay.new q.whole n) }
    ensures named { OnOk result (HasAll named.new (seeds_of pool.new world.now.at.seeds.now)) }
    ensures can { OnOk result (GoesOnIn world.now pool.old pool.new overlay.old overlay.new) }
    ensures kept { IsKept pool.old pool.new world.now.at.seeds.now overlay.old overlay.new }
{
    laws_hold::<P>();
    let up = queue_of(alloc, world.at.graph, &world.ranks, touched)?;
    let whole = Queue::new(alloc, up.row());
    let mut queues = Queues { up, whole };
    while let Some(asn) = queues.up.pop(Way::Up) {
        let may_loop = named.may_have(world.at.seeds, pool, asn);
        let next = Turn {
            asn,
            place: queues.up.row(),
            may_loop,
            part: Part::Up,
        };
        turn(world, pool, overlay, &next, &mut queues, steps)?;
    }
    Ok(queues)
}

// And then downwards, by falling rank. `touched` has the ASes with which the way upwards began.
fn go_down<P: RoutePolicy, V: OriginStates, L: Ledger>(
    world: &RankedWorld<'_, P, V>,
    touched: &[Asn],
    named: &mut Named,
    pool: &mut PathPool,
    overlay: &mut Overlay,
    queues: &mut Queues,
    steps: &mut Steps<L>,
) -> Result<(), NoMemory>
    requires can { CanGo world.now named.old pool.old overlay.old }
    requires work { (n : ℕ) × HasGone P.meaning V.state_of world.now touched.now pool.old overlay.old
        queues.old.whole n }
    ensures exact { OnOk result (AreExactIn P.meaning V.state_of world.now pool.new overlay.new) }
    ensures enough { OnOk result ((first n : ℕ) → steps.old ≡ first + n →
        HasGone P.meaning V.state_of world.now touched.now pool.old overlay.old queues.old.whole n →
        AreEnough (relation world.now.at.graph.now) (λ b. occurs b touched.now) (has_change overlay.new) first
        steps.new) }
    ensures can { OnOk result (GoesOnIn world.now pool.old pool.new overlay.old overlay.new) }
    ensures kept { IsKept pool.old pool.new world.now.at.seeds.now overlay.old overlay.new }
{
    laws_hold::<P>();
    while let Some(asn) = queues.whole.pop(Way::Down) {
        let may_loop = named.may_have(world.at.seeds, pool, asn);
        let next = Turn {
            asn,
            place: queues.whole.row(),
            may_loop,
            part: Part::Whole,
        };
        turn(world, pool, overlay, &next, queues, steps)?;
    }
    Ok(())
}

// Puts the changes into an overlay that has none.
fn put_changes<P: RoutePolicy, V: OriginStates, L: Ledger>(
    alloc: Global,
    world: &RankedWorld<'_, P, V>,
    touched: &[Asn],
    pool: &mut PathPool,
    overlay: &mut Overlay,
    steps: &mut Steps<L>,
) -> Result<(), NoMemory>
    requires fresh { (b : ℕ) → change_at overlay.old b ≡ None }
    requires right { IsRightBut P.meaning V.state_of world.now.at pool.old touched.now }
    requires can { CanGoOn (has world.now.at.graph.now) pool.old pool.old world.now.at.seeds.now
        world.now.at.table.now overlay.old }
    ensures exact { OnOk result (AreExactIn P.meaning V.state_of world.now pool.new overlay.new) }
    ensures enough { OnOk result (AreEnough (relation world.now.at.graph.now) (λ b. occurs b touched.now)
        (has_change overlay.new) steps.old steps.new) }
    ensures can { OnOk result (CanGoOn (has world.now.at.graph.now) pool.old pool.new world.now.at.seeds.now
        world.now.at.table.now overlay.new) }
    ensures kept { IsKept pool.old pool.new world.now.at.seeds.now overlay.old overlay.new }
{
    // there are few ASes, so no count of the pool can grow too great
    let _ = world.at.graph.as_count();
    let mut named = Named::new(alloc);
    let mut queues = go_up(alloc, world, touched, &mut named, pool, overlay, steps)?;
    go_down(
        world,
        touched,
        &mut named,
        pool,
        overlay,
        &mut queues,
        steps,
    )?;
    Ok(())
}

// The changes by turns of ASes, as `plan_edit` says it.
fn plan_by_turns<P: RoutePolicy, V: OriginStates, L: Ledger>(
    alloc: Global,
    world: &World<'_, P, V>,
    ranks: &PlannedRanks<'_>,
    edit: &PrefixEdit<'_>,
    table: &mut Table,
    pool: &mut PathPool,
    steps: &mut Steps<L>,
) -> Result<Overlay, NoMemory>
    requires { CanPlan P.meaning V.state_of world.now ranks.now edit.now table.old pool.old }
    ensures planned { IfOk result (IsPlanned P.meaning V.state_of world.now edit.now table.old table.new
        pool.old pool.new steps.old steps.new) }
    ensures table { SameTable table.old table.new }
    ensures limit { limit_of pool.new ≡ limit_of pool.old }
    ensures err { OnErr result (IsUndone pool.old pool.new) }
{
    ranks_fit();
    let mut overlay = Overlay::new(alloc);
    let put = {
        let at = PrefixWorld {
            graph: world.graph,
            book: world.book,
            states: world.states,
            seeds: edit.seeds,
            table: &*table,
        };
        let ranked = RankedWorld { at, ranks: *ranks };
        put_changes(alloc, &ranked, edit.touched, pool, &mut overlay, steps)
    };
    if put.is_err() || table.room_for(&overlay).is_err() {
        overlay.undo(pool);
        return Err(NoMemory);
    }
    Ok(overlay)
}

/// The changes of a table that an edit brings. The world and the seeds are those after the edit, and
/// `touched` of the edit has the ASes that may hold something else than what is right there: the ends of
/// an edited link, the AS of an edited policy, and who reads an edited state or has an edited seed. With
/// the changes in place the table stands for the stable routing, which is the only one, and the overlay
/// has just the ASes at which the two differ. It takes at most two steps for each AS that is in
/// `touched` or has a neighbour in the overlay.
///
/// The graph has no provider cycle, and the plan is the last one of the ranks and gives its ranks. The
/// table holds entries only for its ASes and those in `touched`, and is right at all ASes that are not in
/// `touched`; the seeds stand only at its ASes. The table owns one hold for each of its entries, the
/// paths of these and of the seeds are live, no count of the pool is above 4,000,000,000, and the pool's
/// limit leaves two cells for each AS beside the live ones.
///
/// The overlay owns one hold for each of its entries, and for each of them at most one cell more is live.
/// What was live keeps its path, and the table is as before and has room for the changes. Its only
/// refusal is want of memory, and then the holds are as before, and so is each path that is held.
pub fn plan_edit<P: RoutePolicy, V: OriginStates, L: Ledger>(
    alloc: Global,
    world: &World<'_, P, V>,
    ranks: &PlannedRanks<'_>,
    edit: &PrefixEdit<'_>,
    table: &mut Table,
    pool: &mut PathPool,
    steps: &mut Steps<L>,
) -> Result<Overlay, NoMemory>
    requires { CanPlan P.meaning V.state_of world.now ranks.now edit.now table.old pool.old }
    ensures planned { IfOk result (IsPlanned P.meaning V.state_of world.now edit.now table.old table.new
        pool.old pool.new steps.old steps.new) }
    ensures table { SameTable table.old table.new }
    ensures limit { limit_of pool.new ≡ limit_of pool.old }
    ensures err { OnErr result (IsUndone pool.old pool.new) }
{
    if edit.seeds.ases().is_empty() && holds_any(table, edit.touched) {
        one_stable_routing::<P>();
        return clear_all(alloc, world.graph, edit.touched, table);
    }
    plan_by_turns(alloc, world, ranks, edit, table, pool, steps)
}
