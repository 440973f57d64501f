//! The world in which jobs are answered.
ghost use Rattle.std.specs.Prelude.{◌≡◌, ◌≤◌, All, IfErr, IfOk};
ghost use Rattle.as_graph.specs.Prelude.{as_count};
ghost use Rattle.as_graph.specs.declared.build.TheConstants.{MOST_ASES};
ghost use Rattle.sim_core.specs.Prelude.{IsGraphOf, world_of, IsLoadRefusal, HasCycle, topology};
ghost use Rattle.asprop_run.specs.Loaded.{Serves, loaded_world};

use as_graph::Graph;
use net_names::Links;
use rank_order::Ranks;
use roa_table::Vrps;
use scenario_text::Scenario;
use sim_core::{Base, LoadError, Sim};
use stability_laws::SeedPlan;
use std::alloc::Global;
use task_reading::{Jobs, Needs};

/// A world, with what answers are made from.
#[derive(Drop)]
pub enum Loaded {
    /// With what is kept of it.
    Whole(Sim),
    /// The world alone.
    Bare(Base),
    /// With the ranks of its ASes.
    Ranked(Base, Ranks),
}

impl Loaded {
    /// The world of these links, these payloads and this scenario, with what is kept of it where the jobs need that. It is
    /// refused as `Sim::load` says.
    pub fn load(
        alloc: Global,
        links: Links,
        vrps: Vrps,
        scenario: Scenario,
        jobs: &Jobs,
    ) -> Result<Loaded, LoadError>
        ensures world { IfOk result (λ loaded. loaded_world loaded ≡ world_of links vrps scenario) }
        ensures no_cycle { IfOk result (λ loaded. HasCycle (loaded_world loaded) → ⊥) }
        ensures few { IfOk result (λ loaded. as_count (topology (loaded_world loaded)) ≤ MOST_ASES) }
        ensures serves { IfOk result (λ loaded. All (Serves loaded) jobs.now) }
        ensures refused { IfErr result (IsLoadRefusal (world_of links vrps scenario)) }
    {
        match jobs.needs() {
            Needs::Kept => Ok(Loaded::Whole(Sim::load(alloc, links, vrps, scenario)?)),
            Needs::World => Ok(Loaded::Bare(Base::load(alloc, links, vrps, scenario)?)),
            Needs::Ranks => {
                let (base, ranks) = Base::load_ranked(alloc, links, vrps, scenario)?;
                Ok(Loaded::Ranked(base, ranks))
            }
        }
    }

    /// The ASes with their links.
    pub fn graph(&self) -> &Graph
        ensures { IsGraphOf (loaded_world self.now) result.now }
    {
        match self {
            Loaded::Whole(sim) => sim.graph(),
            Loaded::Bare(base) | Loaded::Ranked(base, _) => base.graph(),
        }
    }

    /// Who announces what, and who leaks in which round.
    pub fn plan(&self) -> &SeedPlan
        ensures { result.now ≡ (loaded_world self.now).plan }
    {
        match self {
            Loaded::Whole(sim) => sim.plan(),
            Loaded::Bare(base) | Loaded::Ranked(base, _) => base.plan(),
        }
    }

    /// How many rounds the world has.
    pub fn rounds(&self) -> u32
        ensures { result ≡ (loaded_world self.now).rounds }
    {
        match self {
            Loaded::Whole(sim) => sim.rounds(),
            Loaded::Bare(base) | Loaded::Ranked(base, _) => base.rounds(),
        }
    }
}
