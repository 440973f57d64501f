//! Making a simulation.
ghost use Rattle.std.specs.Prelude.{◌≡◌, ◌<◌, ◌≤◌, ℕ, false, IfOk, IfErr, OnOk};
ghost use Rattle.as_graph.specs.Prelude.{as_count, relation, unmarked, HasNoProviderCycle, IsRank};
ghost use Rattle.rank_order.specs.Prelude.{rank_at};
ghost use Rattle.leak_round.specs.Prelude.{IsWithinLimits, is_open};
ghost use Rattle.roa_table.specs.Prelude.{Payloads};
ghost use Rattle.sim_core.specs.Bases.{base_world};
ghost use Rattle.sim_core.specs.Loaded.{names_in, world_of};
ghost use Rattle.sim_core.specs.Loading.{IsCycleRefusal, IsLoadRefusal};
ghost use Rattle.sim_core.specs.Marking.{marked};
ghost use Rattle.sim_core.specs.Parts.{AreRoundsOf};
ghost use Rattle.sim_core.specs.Views.{AreRight, world_seen};
ghost use Rattle.leak_round.specs.declared.limits.TheConstants.{MOST_ROUNDS};
ghost use Rattle.as_graph.specs.declared.build.TheConstants.{MOST_ASES};

use crate::naming::world_graph;
use crate::parts::Parts;
use crate::readers::readers_of;
use crate::seeding::{policies, seed_plan};
use crate::validating::known_states;
use crate::watching::{watch_rounds, watched_addrs};
use crate::{Base, LoadError};
use as_graph::Graph;
use leak_round::Rounds;
use net_names::{Links, NoMemory};
use origin_validation::KnownStates;
use policy_kinds::Kind;
use rank_order::{RankError, Ranks};
use roa_table::Vrps;
use route_choice::Steps;
use scenario_text::Scenario;
use stability_laws::{SeedPlan, World};
use std::alloc::Global;
use std::sync::ledger::{Blank, Ledger};

// The ranks of a graph.
fn ranks_of(alloc: Global, graph: &Graph) -> Result<Ranks, LoadError>
    ensures ranks { IfOk result (λ r. (a : ℕ) → IsRank (relation graph.now) a (rank_at r a)) }
    ensures no_cycle { OnOk result (HasNoProviderCycle (relation graph.now)) }
    ensures refused { IfErr result (IsCycleRefusal (relation graph.now)) }
{
    match Ranks::build(alloc, graph) {
        Ok(ranks) => Ok(ranks),
        Err(RankError::Memory) => Err(LoadError::Memory),
        Err(RankError::ProviderCycle(cycle)) => Err(LoadError::ProviderCycle(cycle)),
    }
}

// The tables of the rounds of a plan, of which there are so many, by the states over the payloads.
fn rounds_of<L: Ledger>(
    alloc: Global,
    world: &World<'_, Kind, KnownStates<'_>>,
    ranks: &Ranks,
    plan: SeedPlan,
    count: u32,
    blank: Blank,
) -> Result<Rounds, NoMemory>
    requires ledger { (blank.name ≡ L.name) × (blank.parts ≡ L.parts) × (0 < L.parts) }
    requires no_cycle { HasNoProviderCycle (relation world.now.graph.now) }
    requires ranks { (a : ℕ) → IsRank (relation world.now.graph.now) a (rank_at ranks.now a) }
    requires small { IsWithinLimits plan }
    requires few { count ≤ MOST_ROUNDS }
    ensures rounds { IfOk result
        (AreRoundsOf world.now.graph.now world.now.states.now.payloads world.now.book.now plan count) }
    ensures closed { IfOk result (λ rounds. is_open rounds ≡ false) }
{
    let mut steps = Steps::<L>::new(blank);
    Rounds::build(alloc, world, ranks, plan, count, &mut steps)
}

// The graph of a world, which has no provider cycle, and the ranks of its ASes.
fn graph_and_ranks(
    alloc: Global,
    links: &Links,
    scenario: &Scenario,
) -> Result<(Graph, Ranks), LoadError>
    ensures graph { IfOk result (λ r. r.0 ≡ marked (unmarked links.now) (names_in scenario.now)) }
    ensures few { IfOk result (λ r. as_count r.0 ≤ MOST_ASES) }
    ensures ranks { IfOk result (λ r. (a : ℕ) → IsRank (relation r.0) a (rank_at r.1 a)) }
    ensures no_cycle { IfOk result (λ r. HasNoProviderCycle (relation r.0)) }
    ensures refused { IfErr result (λ e. (vrps : Payloads) → IsLoadRefusal (world_of links.now vrps scenario.now) e) }
{
    let graph = world_graph(alloc, links, scenario)?;
    let ranks = ranks_of(alloc, &graph)?;
    Ok((graph, ranks))
}

// The world of a graph, payloads and a scenario.
fn base_of(alloc: Global, graph: Graph, vrps: Vrps, scenario: &Scenario) -> Result<Base, NoMemory>
    requires { graph ≡ marked (unmarked graph.links) (names_in scenario.now) }
    ensures world { IfOk result (λ base. base_world base ≡ world_of graph.links vrps scenario.now) }
    ensures graph { IfOk result (λ base. base.graph ≡ graph) }
{
    let book = policies(alloc, scenario, &graph)?;
    let plan = seed_plan(alloc, scenario)?;
    let watched = watched_addrs(alloc, scenario)?;
    let rounds = scenario.leak_lists() as u32 + 1;
    Ok(Base {
        graph,
        vrps,
        book,
        plan,
        rounds,
        watched,
    })
}

/// The world of links, payloads and a scenario, as `Base::load` says, and the ranks of its ASes.
pub fn load_base(
    alloc: Global,
    links: &Links,
    vrps: Vrps,
    scenario: &Scenario,
) -> Result<(Base, Ranks), LoadError>
    ensures world { IfOk result (λ r. base_world r.0 ≡ world_of links.now vrps scenario.now) }
    ensures few { IfOk result (λ r. as_count r.0.graph ≤ MOST_ASES) }
    ensures ranks { IfOk result (λ r. (a : ℕ) → IsRank (relation r.0.graph) a (rank_at r.1 a)) }
    ensures no_cycle { IfOk result (λ r. HasNoProviderCycle (relation r.0.graph)) }
    ensures refused { IfErr result (IsLoadRefusal (world_of links.now vrps scenario.now)) }
{
    let (graph, ranks) = graph_and_ranks(alloc, links, scenario)?;
    let base = base_of(alloc, graph, vrps, scenario)?;
    Ok((base, ranks))
}

/// The parts of the simulation of a world: the world, its ranks, and what is kept of it.
pub fn keep<L: Ledger>(
    alloc: Global,
    base: Base,
    ranks: Ranks,
    blank: Blank,
) -> Result<Parts, NoMemory>
    requires ledger { (blank.name ≡ L.name) × (blank.parts ≡ L.parts) × (0 < L.parts) }
    requires ranks { (a : ℕ) → IsRank (relation base.graph) a (rank_at ranks a) }
    requires no_cycle { HasNoProviderCycle (relation base.graph) }
    ensures world { IfOk result (λ parts. world_seen parts ≡ base_world base) }
    ensures right { IfOk result AreRight }
{
    let Base {
        graph,
        vrps,
        book,
        plan,
        rounds: count,
        watched,
    } = base;
    let readers = readers_of(alloc, &graph, &book)?;
    let rounds = {
        let states = known_states(alloc, &vrps, &plan)?;
        let world = World {
            graph: &graph,
            book: &book,
            states: &states,
        };
        rounds_of::<L>(alloc, &world, &ranks, plan, count, blank)?
    };
    let watches = watch_rounds(alloc, &graph, &rounds, &book, &watched, count)?;
    Ok(Parts {
        graph,
        ranks,
        vrps,
        book,
        rounds,
        readers,
        watched,
        watches,
    })
}
