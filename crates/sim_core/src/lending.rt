//! What a world lends: a simulation, and one without what is kept of it.
ghost use Rattle.std.specs.Prelude.{◌≡◌, ◌≤◌, ℕ, false, None, IfOk, IfErr, OnOk};
ghost use Rattle.std.specs.FinMap as fin;
ghost use Rattle.std.specs.FinSet as set;
ghost use Rattle.as_graph.specs.Prelude.{IsRank, as_count, has, relation};
ghost use Rattle.leak_round.specs.Prelude.{IsWithinLimits, HaveAtMost};
ghost use Rattle.rank_order.specs.Prelude.{rank_at};
ghost use Rattle.scenario_text.specs.declared.acts.Query.TheVariants as query;
ghost use Rattle.sim_core.specs.Answers.{IsQueryRefusal, refusal_of};
ghost use Rattle.sim_core.specs.Bases.{base_world};
ghost use Rattle.sim_core.specs.Kept.{IsKept};
ghost use Rattle.sim_core.specs.Lent.{IsBookOf, IsGraphOf, StartAtOwnAs, seeds_kept};
ghost use Rattle.sim_core.specs.Loaded.{world_of};
ghost use Rattle.sim_core.specs.Loading.{IsLoadRefusal};
ghost use Rattle.sim_core.specs.Sims.{kept, world_seen};
ghost use Rattle.sim_core.specs.World.{HasCycle, topology};
ghost use Rattle.leak_round.specs.declared.limits.TheConstants.{MAX_CELLS, MOST_ROUNDS};
ghost use Rattle.as_graph.specs.declared.build.TheConstants.{MOST_ASES};

use crate::loading::load_base;
use crate::watching::place_of_addr;
use crate::{Base, LoadError, QueryError, Sim};
use as_graph::Graph;
use net_names::{Addr, Links, Prefix};
use policy_kinds::Kind;
use rank_order::Ranks;
use roa_table::Vrps;
use scenario_text::Scenario;
use stability_laws::{Book, SeedPlan, Seeds, paths_go_on, plans_are_sound};
use std::alloc::Global;

impl Base {
    /// The world of these links, these payloads and this scenario. It makes no routing.
    ///
    /// `TooManyAses` comes exactly where the world has more than 150,000 ASes, and else `ProviderCycle`
    /// exactly where its links have a provider cycle (Gao and Rexford 2001), with one from its lowest
    /// number on, unless memory runs out.
    pub fn load(
        alloc: Global,
        links: Links,
        vrps: Vrps,
        scenario: Scenario,
    ) -> Result<Base, LoadError>
        ensures world { IfOk result (λ base. base_world base ≡ world_of links vrps scenario) }
        ensures no_cycle { IfOk result (λ base. HasCycle (base_world base) → ⊥) }
        ensures few { IfOk result (λ base. as_count (topology (base_world base)) ≤ MOST_ASES) }
        ensures refused { IfErr result (IsLoadRefusal (world_of links vrps scenario)) }
    {
        let (base, _) = load_base(alloc, &links, vrps, &scenario)?;
        Ok(base)
    }

    /// The world, made and refused as `Base::load` says, with the rank of each AS (Gao and Rexford 2001).
    pub fn load_ranked(
        alloc: Global,
        links: Links,
        vrps: Vrps,
        scenario: Scenario,
    ) -> Result<(Base, Ranks), LoadError>
        ensures world { IfOk result (λ r. base_world r.0 ≡ world_of links vrps scenario) }
        ensures no_cycle { IfOk result (λ r. HasCycle (base_world r.0) → ⊥) }
        ensures few { IfOk result (λ r. as_count (topology (base_world r.0)) ≤ MOST_ASES) }
        ensures ranks { IfOk result (λ r. (a : ℕ) →
            IsRank (relation (topology (base_world r.0))) a (rank_at r.1 a)) }
        ensures refused { IfErr result (IsLoadRefusal (world_of links vrps scenario)) }
    {
        let (base, ranks) = load_base(alloc, &links, vrps, &scenario)?;
        Ok((base, ranks))
    }

    /// The ASes with their links.
    pub fn graph(&self) -> &Graph
        ensures { IsGraphOf (base_world self.now) result.now }
    {
        &self.graph
    }

    /// The policy of each AS.
    pub fn book(&self) -> &Book<Kind>
        ensures { IsBookOf (base_world self.now) result.now }
    {
        &self.book
    }

    /// The validated payloads.
    pub fn vrps(&self) -> &Vrps
        ensures { result.now ≡ (base_world self.now).payloads }
    {
        &self.vrps
    }

    /// Who announces what, and who leaks in which round.
    pub fn plan(&self) -> &SeedPlan
        ensures value { result.now ≡ (base_world self.now).plan }
        ensures small { IsWithinLimits result.now }
    {
        &self.plan
    }

    /// How many rounds the world has, at most 4.
    pub fn rounds(&self) -> u32
        ensures value { result ≡ (base_world self.now).rounds }
        ensures few { result ≤ MOST_ROUNDS }
    {
        self.rounds
    }

    /// Whether the address is watched.
    pub fn is_watched(&self, addr: Addr) -> bool
        ensures { result ≡ set.contains (base_world self.now).watched addr }
    {
        place_of_addr(self.watched.as_slice(), addr).is_some()
    }
}

impl Sim {
    /// The ASes with their links.
    pub fn graph(&self) -> &Graph
        ensures { IsGraphOf (world_seen self.now) result.now }
    {
        &self.parts.graph
    }

    /// The policy of each AS.
    pub fn book(&self) -> &Book<Kind>
        ensures { IsBookOf (world_seen self.now) result.now }
    {
        &self.parts.book
    }

    /// The validated payloads.
    pub fn vrps(&self) -> &Vrps
        ensures { result.now ≡ (world_seen self.now).payloads }
    {
        &self.parts.vrps
    }

    /// The rank of each AS.
    pub fn ranks(&self) -> &Ranks
        ensures { rank_at result.now ≡ (kept self.now).ranks }
    {
        &self.parts.ranks
    }

    /// Who announces what, and who leaks in which round.
    pub fn plan(&self) -> &SeedPlan
        ensures { result.now ≡ (world_seen self.now).plan }
    {
        self.parts.rounds.seed_plan()
    }

    /// How many rounds the world has, at most 4.
    pub fn rounds(&self) -> u32
        ensures value { result ≡ (world_seen self.now).rounds }
        ensures few { result ≤ MOST_ROUNDS }
    {
        self.parts.rounds.count()
    }

    /// What ASes put in by themselves for a prefix in a round: the announced paths and, from round 2 on,
    /// what each leaker of the round, unless it announces the prefix, got from a peer or a provider in
    /// the round just before (RFC 7908, section 3). Each path starts with its AS and has at most
    /// 40,000,000 numbers.
    ///
    /// `UnknownRound` comes exactly where the world has not the round, and else `UnknownPrefix` exactly
    /// where it has not the prefix, unless memory runs out.
    pub fn seeds(&self, alloc: Global, round: u32, prefix: Prefix) -> Result<Seeds, QueryError>
        ensures seeds { IfOk result (λ s. (a : ℕ) →
            fin.get s a ≡ seeds_kept (world_seen self.now) (kept self.now) round prefix a) }
        ensures inside { IfOk result (λ s. (a : ℕ) →
            has (topology (world_seen self.now)) a ≡ false → fin.get s a ≡ None) }
        ensures own { IfOk result (λ s. IsKept (world_seen self.now) (kept self.now) → StartAtOwnAs s) }
        ensures short { IfOk result (HaveAtMost MAX_CELLS) }
        ensures known { OnOk result (refusal_of (world_seen self.now) (query.Routes round prefix) ≡ None) }
        ensures refused { IfErr result (IsQueryRefusal (world_seen self.now) (query.Routes round prefix)) }
    {
        // `table_of` is called for its refusals.
        let _table = self.table_of(round, prefix)?;
        paths_go_on::<Kind>();
        plans_are_sound(self.parts.rounds.seed_plan());
        let seeds = self.parts.rounds.seeds(alloc, round, prefix)?;
        Ok(seeds)
    }
}
