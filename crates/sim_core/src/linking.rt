//! Edits of links.
ghost use Rattle.std.specs.Prelude.{◌≡◌, ◌≢◌, ◌≤◌, ◌⊎◌, min, max, true, Some, None, IfOk, IfErr, OnOk, OnErr, IfNone, IfSome};
ghost use Rattle.as_graph.specs.declared.error.GraphError.{GraphError as AGraphError};
ghost use Rattle.as_graph.specs.Prelude.{AsesAreKept, EditsAreUndone, LinksAreSet, LinksAreSound, LinksAreTaken, with_link, HasNoProviderCycle, IsProviderCycle, IsLinkRefusal, is_room_for, relation};
ghost use Rattle.cycle_check.specs.Prelude.{without_pair};
ghost use Rattle.leak_round.specs.Prelude.{plan_of, pool_of};
ghost use Rattle.path_pool.specs.Pool.{live_count};
ghost use Rattle.rank_order.specs.Prelude.{RanksStay};
ghost use Rattle.scenario_text.specs.declared.acts.Edit.TheVariants.{Link, Unlink};
ghost use Rattle.sim_core.specs.Editing.{BeginsWithLink, HasLinks, IsChanged, IsEditable, IsEditedQuickly, IsLinkStop, IsQuickChange, IsUnchanged, IsUndone, ground_of, links_with};
ghost use Rattle.sim_core.specs.Edits.{IsEditRefusal};
ghost use Rattle.sim_core.specs.declared.errors.EditError.TheVariants.{AbsentLink};
ghost use Rattle.sim_core.specs.Ground.{BelongTo, DiffersAtPair, Ground as AGround, StayIf};
ghost use Rattle.sim_core.specs.Views.{world_seen};
ghost use Rattle.leak_round.specs.declared.rounds.TheConstants.{MOST_CELLS};

use crate::marking::room_for;
use crate::parts::Parts;
use crate::{Changed, EditError, EditLimit};
use as_graph::{
    Graph, GraphError, ases_are_kept, edits_are_undone, links_are_set, links_are_sound,
    links_are_taken,
};
use cycle_check::{Cycle, closes};
use net_names::{Asn, NoMemory, Rel};
use origin_validation::States;
use policy_kinds::Kind;
use rank_order::ranks_stay;
use route_choice::Steps;
use stability_laws::{World, paths_go_on, plans_are_sound};
use std::alloc::Global;
use std::sync::ledger::Ledger;

// What holds of links and of their edits, and of ranks.
fn link_laws()
    ensures sound { LinksAreSound }
    ensures set { LinksAreSet }
    ensures taken { LinksAreTaken }
    ensures undone { EditsAreUndone }
    ensures kept { AsesAreKept }
    ensures stay { RanksStay }
{
    links_are_sound();
    links_are_set();
    links_are_taken();
    edits_are_undone();
    ases_are_kept();
    ranks_stay();
}

// Sets the link of a pair that has room for it.
fn relink(graph: &mut Graph, a: Asn, b: Asn, rel: Rel)
    requires apart { a ≢ b }
    requires room { is_room_for graph.old.room a b ≡ true }
    requires fits { (e : AGraphError) → IsLinkRefusal graph.old a b rel e → ⊥ }
    ensures { graph.new ≡ with_link graph.old a b rel }
{
    match graph.link(a, b, rel) {
        Ok(()) => {}
        Err(_) => unreachable!(),
    }
}

// A provider cycle that the pair's link closes, from its provider and customer on, if there is one.
// Without the link there is none.
fn closed_by(
    alloc: Global,
    graph: &Graph,
    a: Asn,
    b: Asn,
    rel: Rel,
) -> Result<Option<Cycle>, NoMemory>
    requires apart { a ≢ b }
    requires linked { relation graph.now a b ≡ Some rel }
    requires there { HasNoProviderCycle (without_pair graph.now a b) }
    requires back { HasNoProviderCycle (without_pair graph.now b a) }
    ensures cycle { IfOk result (λ found. IfSome found (λ c.
        IsProviderCycle (relation graph.now) c × BeginsWithLink (Link a b rel) c)) }
    ensures none { IfOk result (λ found. IfNone found (HasNoProviderCycle (relation graph.now))) }
{
    link_laws();
    match rel {
        Rel::Customer => closes(alloc, graph, a, b),
        Rel::Provider => closes(alloc, graph, b, a),
        Rel::Peer => Ok(None),
    }
}

// The refusal of a pair without a link.
fn absent_link(a: Asn, b: Asn) -> EditError
    ensures { result ≡ AbsentLink (min a b) (max a b) }
{
    if a < b {
        EditError::AbsentLink { lo: a, hi: b }
    } else {
        EditError::AbsentLink { lo: b, hi: a }
    }
}

impl Parts {
    // Sets a link of two ASes, for whose pair there is room from then on.
    fn set_link(&mut self, a: Asn, b: Asn, rel: Rel) -> Result<(), EditError>
        requires { a ≢ b }
        ensures ok { OnOk result (HasLinks self.old self.new a b (links_with self.old.graph a b (Some rel))) }
        ensures err { OnErr result (IsUndone self.old self.new) }
        ensures refused { IfErr result (IsEditRefusal (world_seen self.old) (Link a b rel)) }
    {
        self.is_small();
        room_for(&mut self.graph, a, b)?;
        match self.graph.link(a, b, rel) {
            Ok(()) => Ok(()),
            Err(GraphError::Memory) => Err(EditError::Memory),
            Err(GraphError::TooManyLinks) => Err(EditError::Limit {
                which: EditLimit::Links,
            }),
            Err(GraphError::TooManyAses) => Err(EditError::Limit {
                which: EditLimit::Ases,
            }),
        }
    }

    // Gives a pair, for which there is room, the link that it had, or none.
    fn set_back(&mut self, a: Asn, b: Asn, old: Option<Rel>)
        requires apart { a ≢ b }
        requires room { is_room_for self.old.graph.room a b ≡ true }
        requires there { IfNone old (relation self.old.graph a b ≢ None) }
        requires fits { IfSome old (λ r. (e : AGraphError) → IsLinkRefusal self.old.graph a b r e → ⊥) }
        ensures { HasLinks self.old self.new a b (links_with self.old.graph a b old) }
    {
        match old {
            Some(rel) => relink(&mut self.graph, a, b, rel),
            None => {
                let _ = self.graph.unlink(a, b);
            }
        }
    }

    // Takes what is kept to the graph in which the link of two ASes was edited. An end of it chooses anew only for
    // prefixes of which it may not be right still.
    fn change_ends<L: Ledger>(
        &mut self,
        alloc: Global,
        a: Asn,
        b: Asn,
        kept: bool,
        steps: &mut Steps<L>,
    ) -> Result<Changed, NoMemory>
        requires few_cells { live_count (pool_of self.old.rounds) ≤ MOST_CELLS }
        requires no_cycle { HasNoProviderCycle (relation self.old.graph) }
        requires stay { StayIf kept self.old.graph self.old.ranks }
        requires from { (old : AGround) × BelongTo old self.old.ranks self.old.rounds self.old.watches.items
            × DiffersAtPair old (ground_of self.old) (plan_of self.old.rounds) a b }
        ensures changed { IfOk result (λ c. IsChanged self.old self.new None c.routes) }
        ensures quick { OnOk result (IsQuickChange self.old self.new (λ p x. (x ≡ a) ⊎ (x ≡ b)) steps.old steps.new) }
        ensures err { OnErr result (IsUnchanged self.old self.new) }
    {
        links_are_sound();
        paths_go_on::<Kind>();
        plans_are_sound(self.rounds.seed_plan());
        let touched = {
            let states = States::of(&self.vrps);
            let world = World {
                graph: &self.graph,
                book: &self.book,
                states: &states,
            };
            self.rounds.touched_ends(alloc, &world, a, b)?
        };
        self.change_at(alloc, &[a, b], &touched, kept, None, steps)
    }

    // Takes what is kept to the graph with a new link, unless the link closes a provider cycle.
    fn change_linked<L: Ledger>(
        &mut self,
        alloc: Global,
        a: Asn,
        b: Asn,
        rel: Rel,
        kept: bool,
        steps: &mut Steps<L>,
    ) -> Result<Changed, EditError>
        requires apart { a ≢ b }
        requires linked { relation self.old.graph a b ≡ Some rel }
        requires there { HasNoProviderCycle (without_pair self.old.graph a b) }
        requires back { HasNoProviderCycle (without_pair self.old.graph b a) }
        requires few_cells { live_count (pool_of self.old.rounds) ≤ MOST_CELLS }
        requires stay { StayIf kept self.old.graph self.old.ranks }
        requires from { (old : AGround) × BelongTo old self.old.ranks self.old.rounds self.old.watches.items
            × DiffersAtPair old (ground_of self.old) (plan_of self.old.rounds) a b }
        ensures changed { IfOk result (λ c. IsChanged self.old self.new None c.routes) }
        ensures quick { OnOk result (IsQuickChange self.old self.new (λ p x. (x ≡ a) ⊎ (x ≡ b)) steps.old steps.new) }
        ensures no_cycle { OnOk result (HasNoProviderCycle (relation self.old.graph)) }
        ensures err { OnErr result (IsUnchanged self.old self.new) }
        ensures refused { IfErr result (IsLinkStop self.old.graph a b rel) }
    {
        if let Some(cycle) = closed_by(alloc, &self.graph, a, b, rel)? {
            return Err(EditError::ProviderCycle(cycle));
        }
        let changed = self.change_ends(alloc, a, b, kept, steps)?;
        Ok(changed)
    }

    // Sets a link of two ASes that differ.
    pub(crate) fn edit_link<L: Ledger>(
        &mut self,
        alloc: Global,
        a: Asn,
        b: Asn,
        rel: Rel,
        steps: &mut Steps<L>,
    ) -> Result<Changed, EditError>
        requires apart { a ≢ b }
        requires editable { IsEditable self.old }
        ensures { IsEditedQuickly self.old self.new (Link a b rel) result steps.old steps.new }
    {
        link_laws();
        let old = self.graph.rel(a, b);
        self.set_link(a, b, rel)?;
        self.is_small();
        let kept = self.ranks.bear(a, b, old, Some(rel));
        match self.change_linked(alloc, a, b, rel, kept, steps) {
            Ok(changed) => Ok(changed),
            Err(error) => {
                self.set_back(a, b, old);
                Err(error)
            }
        }
    }

    // Takes the link of a pair away, if it has one; there is room for it from then on.
    fn cut_link(&mut self, a: Asn, b: Asn) -> Result<(), EditError>
        ensures ok { OnOk result (HasLinks self.old self.new a b (links_with self.old.graph a b None)) }
        ensures there { OnOk result (relation self.old.graph a b ≢ None) }
        ensures err { OnErr result (IsUndone self.old self.new) }
        ensures refused { IfErr result (IsEditRefusal (world_seen self.old) (Unlink a b)) }
    {
        if self.graph.rel(a, b).is_none() {
            return Err(absent_link(a, b));
        }
        room_for(&mut self.graph, a, b)?;
        let _ = self.graph.unlink(a, b);
        Ok(())
    }

    // Takes a link of two ASes away.
    pub(crate) fn edit_unlink<L: Ledger>(
        &mut self,
        alloc: Global,
        a: Asn,
        b: Asn,
        steps: &mut Steps<L>,
    ) -> Result<Changed, EditError>
        requires { IsEditable self.old }
        ensures { IsEditedQuickly self.old self.new (Unlink a b) result steps.old steps.new }
    {
        link_laws();
        let link = self.graph.rel(a, b);
        self.is_small();
        self.cut_link(a, b)?;
        self.is_small();
        let kept = self.ranks.bear(a, b, link, None);
        match self.change_ends(alloc, a, b, kept, steps) {
            Ok(changed) => Ok(changed),
            Err(_) => {
                self.set_back(a, b, link);
                Err(EditError::Memory)
            }
        }
    }
}
