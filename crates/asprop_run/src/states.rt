//! What the world lends for one round and one prefix: the states of origins, and the seeds.
ghost use Rattle.std.specs.Prelude.{◌≡◌, ℕ, None, false, IfOk};
ghost use Rattle.std.specs.FinMap as fin;
ghost use Rattle.as_graph.specs.Prelude.{has};
ghost use Rattle.message_sim.specs.Starts.{HasShortSeeds};
ghost use Rattle.scenario_text.specs.declared.acts.Query.TheVariants as query;
ghost use Rattle.sim_core.specs.Answers.{refusal_of};
ghost use Rattle.sim_core.specs.Lent.{seeds_kept};
ghost use Rattle.sim_core.specs.Prelude.{kept, topology, world_seen};

use net_names::{NoMemory, Prefix};
use origin_validation::KnownStates;
use roa_table::Vrps;
use sim_core::{QueryError, Sim};
use stability_laws::{SeedPlan, Seeds};
use std::alloc::Global;

/// The states by the payloads. Those of the prefix with the origins that announce it are found ahead.
pub fn states_at<'a>(
    alloc: Global,
    vrps: &'a Vrps,
    plan: &SeedPlan,
    prefix: Prefix,
) -> Result<KnownStates<'a>, NoMemory>
    ensures { IfOk result (λ states. states.payloads ≡ vrps.now) }
{
    let mut states = KnownStates::of(alloc, vrps);
    for asn in plan.announcers() {
        if let Some(path) = plan.path(prefix, *asn) {
            if let Some(origin) = path.as_slice().last() {
                states.find(prefix, *origin)?;
            }
        }
    }
    Ok(states)
}

/// The seeds of a round and a prefix that the world has.
pub fn seeds_at(alloc: Global, sim: &Sim, round: u32, prefix: Prefix) -> Result<Seeds, NoMemory>
    requires { refusal_of (world_seen sim.now) (query.Routes round prefix) ≡ None }
    ensures seeds { IfOk result (λ s. (a : ℕ) →
        fin.get s a ≡ seeds_kept (world_seen sim.now) (kept sim.now) round prefix a) }
    ensures inside { IfOk result (λ s. (a : ℕ) →
        has (topology (world_seen sim.now)) a ≡ false → fin.get s a ≡ None) }
    ensures short { IfOk result (λ s. HasShortSeeds (fin.get s)) }
{
    match sim.seeds(alloc, round, prefix) {
        Ok(seeds) => Ok(seeds),
        Err(QueryError::Memory) => Err(NoMemory),
        Err(QueryError::UnknownRound { .. })
        | Err(QueryError::UnknownPrefix { .. })
        | Err(QueryError::UnknownAs { .. })
        | Err(QueryError::NotWatched { .. }) => unreachable!(),
    }
}
