//! Edits of policies.
ghost use Rattle.std.specs.Prelude.{◌≡◌, ◌≢◌, ◌⊎◌, ℕ, true, false, Some, IsTrue, IfOk, IfErr, OnOk, OnErr, if◌then◌else◌};
ghost use Rattle.as_graph.specs.Prelude.{without_mark, relation};
ghost use Rattle.net_names.specs.Prelude.{occurs, PrefixValue};
ghost use Rattle.net_names.specs.declared.routes.Rel.{Rel as ARel};
ghost use Rattle.leak_round.specs.Prelude.{plan_of, touches};
ghost use Rattle.policy_kinds.specs.Prelude.{kind_policy};
ghost use Rattle.policy_kinds.specs.declared.kind.Kind.{Kind as AKind};
ghost use Rattle.scenario_text.specs.declared.acts.Edit.TheVariants.{Policy};
ghost use Rattle.sim_core.specs.Editing.{HasRoomToGive, IsEditable, IsEditedQuickly, IsGiven, IsRoomed, IsUndone};
ghost use Rattle.sim_core.specs.Edits.{refusal_of_edit};
ghost use Rattle.sim_core.specs.Loaded.{is_other as is_other_policy};
ghost use Rattle.sim_core.specs.Views.{world_seen};
ghost use Rattle.sim_core.specs.declared.errors.EditError.{EditError as AnEditError};
ghost use Rattle.stability_laws.specs.Prelude.{policy_at, has_prefix};

use crate::marking::room_for;
use crate::naming::is_other;
use crate::parts::Parts;
use crate::readers::list_if_reads;
use crate::touching::touched_ases;
use crate::{Changed, EditError, EditLimit};
use as_graph::{Graph, GraphError, ases_are_kept, links_are_sound};
use leak_round::Touched;
use net_names::{Asn, NoMemory};
use policy_kinds::Kind;
use policy_laws::RoutePolicy;
use route_choice::Steps;
use std::alloc::Global;
use std::sync::ledger::Ledger;

// Takes the mark of an AS away, unless it is named otherwise.
fn unmark_unless(graph: &mut Graph, named: bool, asn: Asn)
    ensures { graph.new ≡ (if named then graph.old else without_mark graph.old asn) }
{
    if !named {
        graph.unmark(asn);
    }
}

// Puts the neighbours of an AS behind the others.
fn push_neighbours(graph: &Graph, asn: Asn, ases: &mut Vec<Asn>) -> Result<(), NoMemory>
    ensures neighbours { OnOk result ((n : ℕ) (r : ARel) → relation graph.now asn n ≡ Some r →
        occurs n ases.new.items ≡ true) }
    ensures more { (a : ℕ) → occurs a ases.old.items ≡ true → occurs a ases.new.items ≡ true }
    ensures only { (a : ℕ) → occurs a ases.new.items ≡ true → occurs a ases.old.items ≡ false →
        (r : ARel) × (relation graph.now asn a ≡ Some r) }
{
    for neighbour in graph.neighbours(asn) {
        ases.push(neighbour.asn)?;
    }
    Ok(())
}

impl Parts {
    // Makes room for an edit of the policy of an AS, and lists the AS where the policy reads the states.
    fn make_room(&mut self, asn: Asn, kind: Kind) -> Result<(), NoMemory>
        ensures ok { OnOk result (IsRoomed self.old self.new asn) }
        ensures listed { OnOk result ((kind_policy kind).reads_state ≡ true → occurs asn self.new.readers.ases ≡ true) }
        ensures err { OnErr result (IsUndone self.old self.new) }
    {
        list_if_reads(&mut self.readers, asn, kind)?;
        self.book.room(asn)?;
        room_for(&mut self.graph, asn, asn)?;
        Ok(())
    }

    // Gives an AS a policy other than the plain one, for which there is room.
    fn give_other(&mut self, asn: Asn, kind: Kind) -> Result<(), EditError>
        requires other { is_other_policy (asn, kind) ≡ true }
        requires room { HasRoomToGive self.old asn kind }
        ensures ok { OnOk result (IsGiven self.old self.new asn kind) }
        ensures err { OnErr result (IsUndone self.old self.new) }
        ensures refused { IfErr result (λ e. refusal_of_edit (world_seen self.old) (Policy asn kind) ≡ Some e) }
    {
        ases_are_kept();
        self.is_small();
        match self.graph.mark(asn) {
            Ok(()) => {
                self.book.set(asn, kind);
                Ok(())
            }
            Err(GraphError::TooManyAses) => Err(EditError::Limit {
                which: EditLimit::Ases,
            }),
            Err(_) => unreachable!(),
        }
    }

    // Gives an AS the plain policy again.
    fn give_plain(&mut self, asn: Asn)
        ensures { (kind : AKind) → is_other_policy (asn, kind) ≡ false → IsGiven self.old self.new asn kind }
    {
        ases_are_kept();
        let named = self.rounds.seed_plan().names(asn);
        unmark_unless(&mut self.graph, named, asn);
        self.book.clear(asn);
    }

    // Gives an AS a policy, for which there is room.
    fn give(&mut self, asn: Asn, kind: Kind) -> Result<(), EditError>
        requires { HasRoomToGive self.old asn kind }
        ensures ok { OnOk result (IsGiven self.old self.new asn kind) }
        ensures err { OnErr result (IsUndone self.old self.new) }
        ensures refused { IfErr result (λ e. refusal_of_edit (world_seen self.old) (Policy asn kind) ≡ Some e) }
    {
        if is_other(kind) {
            self.give_other(asn, kind)
        } else {
            self.give_plain(asn);
            Ok(())
        }
    }

    // Gives an AS a policy that it can have.
    fn give_back(&mut self, asn: Asn, kind: Kind)
        requires room { HasRoomToGive self.old asn kind }
        requires fits { (e : AnEditError) → refusal_of_edit (world_seen self.old) (Policy asn kind) ≡ Some e → ⊥ }
        ensures { IsGiven self.old self.new asn kind }
    {
        match self.give(asn, kind) {
            Ok(()) => {}
            Err(_) => unreachable!(),
        }
    }

    // The policy of an AS.
    pub(crate) fn kind_of(&self, asn: Asn) -> Kind
        ensures { result ≡ policy_at self.now.book asn }
    {
        *self.book.policy(asn)
    }

    // The ASes whose entries may be wrong where the policy of an AS becomes another: that AS, and where
    // it begins or ceases to mark, its neighbours too.
    fn touched_with(&self, alloc: Global, asn: Asn, kind: Kind) -> Result<Touched, NoMemory>
        ensures only { IfOk result (λ t. (prefix : PrefixValue) (x : ℕ) → touches t prefix x ≡ true →
            (x ≡ asn) ⊎ (((kind_policy kind).marks ≢ (kind_policy (policy_at self.now.book asn)).marks) × (r : ARel)
            × (relation self.now.graph asn x ≡ Some r))) }
        ensures own { IfOk result (λ t. (prefix : PrefixValue) → IsTrue (has_prefix (plan_of self.now.rounds) prefix) →
            touches t prefix asn ≡ true) }
        ensures neighbours { IfOk result (λ t. (prefix : PrefixValue) (n : ℕ) (r : ARel) →
            IsTrue (has_prefix (plan_of self.now.rounds) prefix) →
            (kind_policy kind).marks ≢ (kind_policy (policy_at self.now.book asn)).marks →
            relation self.now.graph asn n ≡ Some r → touches t prefix n ≡ true) }
    {
        let mut ases = Vec::new(alloc);
        ases.push(asn)?;
        if kind.marks() != self.kind_of(asn).marks() {
            push_neighbours(&self.graph, asn, &mut ases)?;
        }
        touched_ases(alloc, self.rounds.seed_plan(), &ases)
    }

    // Gives an AS a policy.
    pub(crate) fn edit_policy<L: Ledger>(
        &mut self,
        alloc: Global,
        asn: Asn,
        kind: Kind,
        steps: &mut Steps<L>,
    ) -> Result<Changed, EditError>
        requires { IsEditable self.old }
        ensures { IsEditedQuickly self.old self.new (Policy asn kind) result steps.old steps.new }
    {
        links_are_sound();
        let was = self.kind_of(asn);
        self.is_small();
        let touched = self.touched_with(alloc, asn, kind)?;
        self.make_room(asn, kind)?;
        self.give(asn, kind)?;
        self.is_small();
        match self.change_at(alloc, &[asn], &touched, true, None, steps) {
            Ok(changed) => Ok(changed),
            Err(_) => {
                self.give_back(asn, was);
                Err(EditError::Memory)
            }
        }
    }
}
