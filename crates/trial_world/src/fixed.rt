//! What no trial of a line changes.
ghost use Rattle.std.specs.Prelude.{◌≡◌, ℕ, true, IfOk};
ghost use Rattle.as_graph.specs.Prelude.{IsRank, relation};
ghost use Rattle.rank_order.specs.Prelude.{rank_at};
ghost use Rattle.sim_core.specs.Prelude.{base_world, HasCycle, topology};
ghost use Rattle.trial_world.specs.Fixed.{IsFixed};
ghost use Rattle.trial_world.specs.Sweeps.{is_inside};

use crate::lone::lone_ases;
use crate::parts::part_for;
use as_graph::Graph;
use data_trace::WatchIndex;
use net_names::{Addr, Asn, NoMemory};
use origin_validation::KnownStates;
use rank_order::{RankPlan, Ranks};
use sim_core::{Base, kept_are_stable, known_states};
use stability_laws::SeedPlan;
use std::alloc::Global;
use sweep::Sweep;
use three_pass::Course;

/// The world that a line is over, with what its round and its address depend on.
#[derive(Drop)]
pub struct Fixed<'a> {
    pub(crate) alloc: Global,
    pub(crate) base: &'a Base,
    pub(crate) graph: &'a Graph,
    // What propagation goes along, which no policy changes.
    pub(crate) course: Course,
    // The ranks, and what they become where no link changes, which is what an edit goes by.
    pub(crate) ranks: &'a Ranks,
    pub(crate) rank_plan: RankPlan,
    pub(crate) states: KnownStates<'a>,
    // The announcements of the prefixes that hold the address, and the leaks of the rounds up to the round.
    pub(crate) plan: SeedPlan,
    pub(crate) index: WatchIndex,
    // The ASes that are there by their policy alone.
    pub(crate) lone: Vec<Asn>,
    pub(crate) round: u32,
    pub(crate) addr: Addr,
}

/// What the trials of a line begin with.
pub fn fixed_for<'a>(
    alloc: Global,
    base: &'a Base,
    ranks: &'a Ranks,
    line: &Sweep,
) -> Result<Fixed<'a>, NoMemory>
    requires ranks { (a : ℕ) → IsRank (relation (topology (base_world base.now))) a (rank_at ranks.now a) }
    requires no_cycle { HasCycle (base_world base.now) → ⊥ }
    requires inside { is_inside (base_world base.now) line.now ≡ true }
    ensures right { IfOk result IsFixed }
    ensures base { IfOk result (λ f. f.base.now ≡ base.now) }
    ensures round { IfOk result (λ f. f.round ≡ line.now.round) }
    ensures addr { IfOk result (λ f. f.addr ≡ line.now.addr) }
{
    kept_are_stable();
    let (graph, whole) = (base.graph(), base.plan());
    // `rounds` is called for its clause that no world has more than four.
    let _rounds = base.rounds();
    let course = Course::of(alloc, graph, ranks)?;
    let rank_plan = RankPlan::none(alloc);
    let plan = part_for(alloc, whole, line.addr, line.round)?;
    let states = known_states(alloc, base.vrps(), &plan)?;
    let index = WatchIndex::of(alloc, graph, base.book())?;
    let lone = lone_ases(alloc, graph, whole)?;
    Ok(Fixed {
        alloc,
        base,
        graph,
        course,
        ranks,
        rank_plan,
        states,
        plan,
        index,
        lone,
        round: line.round,
        addr: line.addr,
    })
}
