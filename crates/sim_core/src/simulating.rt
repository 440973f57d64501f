//! How a simulation is made and edited, by its parts.
ghost use Rattle.std.specs.Prelude.{◌≡◌, ◌≤◌, IfOk, IfErr, OnOk, OnErr};
ghost use Rattle.as_graph.specs.Prelude.{as_count};
ghost use Rattle.leak_round.specs.Prelude.{HasChanges};
ghost use Rattle.scenario_text.specs.Prelude.{IsWellFormed};
ghost use Rattle.sim_core.specs.Edits.{IsAllowed, IsEditRefusal, edited};
ghost use Rattle.sim_core.specs.Kept.{IsKept};
ghost use Rattle.sim_core.specs.Loaded.{world_of};
ghost use Rattle.sim_core.specs.Loading.{IsLoadRefusal};
ghost use Rattle.sim_core.specs.Sims.{kept, world_seen};
ghost use Rattle.sim_core.specs.Steps.{IsQuick};
ghost use Rattle.sim_core.specs.World.{HasCycle, topology};
ghost use Rattle.as_graph.specs.declared.build.TheConstants.{MOST_ASES};

use crate::loading::{keep, load_base};
use crate::{Changed, EditError, LoadError, Sim};
use net_names::Links;
use roa_table::Vrps;
use route_choice::Steps;
use scenario_text::{Edit, Scenario};
use std::alloc::Global;
use std::marker::Brand;
use std::sync::ledger::{Blank, Ledger};

impl Sim {
    /// The simulation of the world of these links, these payloads and this scenario. For each round and
    /// prefix it keeps the one and only stable routing, for each AS its rank, and for each round and
    /// watched address where the packets of all ASes end.
    ///
    /// `TooManyAses` comes exactly where the world has more than 150,000 ASes, and else `ProviderCycle`
    /// exactly where its links have a provider cycle (Gao and Rexford 2001), with one from its lowest
    /// number on, unless memory runs out.
    pub fn load(
        alloc: Global,
        links: Links,
        vrps: Vrps,
        scenario: Scenario,
    ) -> Result<Sim, LoadError>
        ensures world { IfOk result (λ sim. world_seen sim ≡ world_of links vrps scenario) }
        ensures kept { IfOk result (λ sim. IsKept (world_seen sim) (kept sim)) }
        ensures no_cycle { IfOk result (λ sim. HasCycle (world_seen sim) → ⊥) }
        ensures few { IfOk result (λ sim. as_count (topology (world_seen sim)) ≤ MOST_ASES) }
        ensures refused { IfErr result (IsLoadRefusal (world_of links vrps scenario)) }
    {
        let (base, ranks) = load_base(alloc, &links, vrps, &scenario)?;
        let parts = keep::<Brand>(alloc, base, ranks, Blank::new(1))?;
        Ok(Sim { parts })
    }

    /// Edits the world. Every kept part is then that of the edited world, and the answer says how many
    /// entries differ. Both ends of a link differ, and an announced path has 1 to 64 numbers. A prefix
    /// stays in the world when its last announcement goes.
    ///
    /// It takes at most two steps for each round, prefix and AS that the edit touches, whose seed differs, or
    /// that has a neighbour whose entry differs. Touched are the ends of a link; the AS of a policy and, where
    /// it begins or ceases to mark, its neighbours; and where a payload covers the prefix, the ASes whose
    /// policy reads the states.
    ///
    /// It is refused with the first reason in this order: `UnknownPrefix` exactly where the world has not
    /// the prefix; `AbsentLink`, `AbsentVrp` and `AbsentAnnouncement` exactly where what is to be taken away
    /// is not there; `Limit` exactly where the edited world passes a limit, the first of links, announcements,
    /// ASes and payloads; `ProviderCycle` exactly where the edited world has a provider cycle (Gao and
    /// Rexford 2001), with one from the new link's provider and customer on. `Memory` may come at any
    /// point. After every refusal the world and all that is kept of it are as they were.
    pub fn edit<L: Ledger>(
        &mut self,
        alloc: Global,
        edit: &Edit,
        steps: &mut Steps<L>,
    ) -> Result<Changed, EditError>
        requires formed { IsWellFormed edit.now }
        requires kept { IsKept (world_seen self.old) (kept self.old) }
        requires no_cycle { HasCycle (world_seen self.old) → ⊥ }
        ensures world { OnOk result (world_seen self.new ≡ edited (world_seen self.old) edit.now) }
        ensures allowed { OnOk result (IsAllowed (world_seen self.old) edit.now) }
        ensures kept { OnOk result (IsKept (world_seen self.new) (kept self.new)) }
        ensures changed { IfOk result (λ c. HasChanges (world_seen self.new).plan (world_seen self.new).rounds
            (kept self.old).routings (kept self.new).routings c.routes) }
        ensures quick { OnOk result (IsQuick (world_seen self.old) (world_seen self.new) edit.now
            (kept self.old).routings (kept self.new).routings steps.old steps.new) }
        ensures refused { IfErr result (IsEditRefusal (world_seen self.old) edit.now) }
        ensures same_world { OnErr result (world_seen self.new ≡ world_seen self.old) }
        ensures same_kept { OnErr result (kept self.new ≡ kept self.old) }
    {
        self.parts.tidied(alloc)?;
        self.parts.edit_tidied(alloc, edit, steps)
    }
}
