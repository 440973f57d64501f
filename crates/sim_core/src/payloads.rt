//! Edits of payloads.
ghost use Rattle.std.specs.Prelude.{◌≡◌, ◌≤◌, ℕ, true, IsTrue, IfOk, None, OnErr, OnOk, Some};
ghost use Rattle.as_graph.specs.Prelude.{HasNoProviderCycle, relation};
ghost use Rattle.leak_round.specs.Prelude.{plan_of, pool_of, touches};
ghost use Rattle.net_names.specs.Prelude.{covers, PrefixValue};
ghost use Rattle.path_pool.specs.Pool.{live_count};
ghost use Rattle.policy_kinds.specs.Prelude.{kind_policy};
ghost use Rattle.stability_laws.specs.Prelude.{policy_at, has_prefix};
ghost use Rattle.scenario_text.specs.declared.acts.Edit.TheVariants.{VrpAdd, VrpTake};
ghost use Rattle.sim_core.specs.Editing.{IsChanged, IsEditable, IsEditedQuickly, IsQuickChange, IsUnchanged, ground_less};
ghost use Rattle.sim_core.specs.Ground.{AreReadersTouched, BelongTo};
ghost use Rattle.leak_round.specs.declared.rounds.TheConstants.{MOST_CELLS};

use crate::parts::Parts;
use crate::touching::touched_readers;
use crate::{Changed, EditError, EditLimit};
use leak_round::Touched;
use net_names::{NoMemory, Vrp};
use roa_table::AddError;
use route_choice::Steps;
use std::alloc::Global;
use std::sync::ledger::Ledger;

impl Parts {
    // The ASes whose policy reads states that differ with the payload and without it.
    fn touched_by(&self, alloc: Global, vrp: Vrp) -> Result<Touched, NoMemory>
        ensures only { IfOk result (λ t. (prefix : PrefixValue) (a : ℕ) → touches t prefix a ≡ true →
            (covers vrp.prefix prefix ≡ true) × ((kind_policy (policy_at self.now.book a)).reads_state ≡ true)) }
        ensures these { IfOk result (λ t. (prefix : PrefixValue) →
            IsTrue (has_prefix (plan_of self.now.rounds) prefix) →
            AreReadersTouched self.now.readers.ases self.now.book self.now.vrps vrp (plan_of self.now.rounds) prefix
            (touches t prefix)) }
    {
        touched_readers(
            alloc,
            self.readers.as_slice(),
            &self.book,
            &self.vrps,
            vrp,
            self.rounds.seed_plan(),
        )
    }

    // Takes what is kept, which is that without the payload, to all payloads.
    fn change_with<L: Ledger>(
        &mut self,
        alloc: Global,
        vrp: Vrp,
        steps: &mut Steps<L>,
    ) -> Result<Changed, NoMemory>
        requires few_cells { live_count (pool_of self.old.rounds) ≤ MOST_CELLS }
        requires no_cycle { HasNoProviderCycle (relation self.old.graph) }
        requires from { BelongTo (ground_less self.old (Some vrp)) self.old.ranks self.old.rounds
            self.old.watches.items }
        ensures changed { IfOk result (λ c. IsChanged self.old self.new None c.routes) }
        ensures quick { OnOk result (IsQuickChange self.old self.new
            (λ p a. (covers vrp.prefix p ≡ true) × ((kind_policy (policy_at self.old.book a)).reads_state ≡ true))
            steps.old steps.new) }
        ensures err { OnErr result (IsUnchanged self.old self.new) }
    {
        let touched = self.touched_by(alloc, vrp)?;
        self.change_at(alloc, &[], &touched, true, None, steps)
    }

    // Puts a payload in.
    pub(crate) fn add_vrp<L: Ledger>(
        &mut self,
        alloc: Global,
        vrp: Vrp,
        steps: &mut Steps<L>,
    ) -> Result<Changed, EditError>
        requires { IsEditable self.old }
        ensures { IsEditedQuickly self.old self.new (VrpAdd vrp) result steps.old steps.new }
    {
        self.is_small();
        if self.vrps.has(vrp) {
            return Ok(Changed { routes: 0 });
        }
        match self.vrps.add(vrp) {
            Ok(_) => {}
            Err(AddError::Memory) => return Err(EditError::Memory),
            Err(AddError::TooMany) => {
                return Err(EditError::Limit {
                    which: EditLimit::Vrps,
                });
            }
        }
        self.is_small();
        match self.change_with(alloc, vrp, steps) {
            Ok(changed) => Ok(changed),
            Err(_) => {
                let _ = self.vrps.take(vrp);
                Err(EditError::Memory)
            }
        }
    }

    // Takes a payload out. Nothing is taken before all is made.
    pub(crate) fn take_vrp<L: Ledger>(
        &mut self,
        alloc: Global,
        vrp: Vrp,
        steps: &mut Steps<L>,
    ) -> Result<Changed, EditError>
        requires { IsEditable self.old }
        ensures { IsEditedQuickly self.old self.new (VrpTake vrp) result steps.old steps.new }
    {
        if !self.vrps.has(vrp) {
            return Err(EditError::AbsentVrp { vrp });
        }
        let touched = self.touched_by(alloc, vrp)?;
        self.is_small();
        let changed = self.change_at(alloc, &[], &touched, true, Some(vrp), steps)?;
        let _ = self.vrps.take(vrp);
        Ok(changed)
    }
}
