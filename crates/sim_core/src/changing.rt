//! What belongs to an edited world: planned with all memory, and then put in place without any.
ghost use Rattle.std.specs.Prelude.{◌≡◌, ◌≤◌, ℕ, false, true, Some, IfOk, OnOk, OnErr, map};
ghost use Rattle.std.specs.Option.{option_copied};
ghost use Rattle.as_graph.specs.Hierarchy.{RanksFit};
ghost use Rattle.as_graph.specs.Prelude.{HasNoProviderCycle, IsRank, LinksAreSound, RankFits, has, relation};
ghost use Rattle.net_names.specs.Prelude.{occurs};
ghost use Rattle.origin_validation.specs.Prelude.{less};
ghost use Rattle.path_pool.specs.Pool.{live_count};
ghost use Rattle.policy_kinds.specs.Prelude.{kind_policy};
ghost use Rattle.rank_order.specs.Prelude.{IsLastPlan, rank_after, rank_at};
ghost use Rattle.stability_laws.specs.Laws.{OneFamily, PathsGoOn, RightByOffers, RightFollows};
ghost use Rattle.stability_laws.specs.OfferPaths.{OfferPath};
ghost use Rattle.leak_round.specs.Prelude.{HasChanges, plan_edited, is_open, kept as kept_rounds, plan_of, pool_of, round_count, touches};
ghost use Rattle.sim_core.specs.Editing.{IsChanged, IsQuickChange, IsSmall, IsUnchanged, ground_less};
ghost use Rattle.sim_core.specs.Ground.{AreSeenAlike, BelongTo, DiffersAround, Ground as AGround, IsSeedChange, StayIf, ground_in};
ghost use Rattle.sim_core.specs.Steps.{AreFewSteps};
ghost use Rattle.sim_core.specs.Watching.{addrs_in};
ghost use Rattle.leak_round.specs.declared.limits.TheConstants.{MOST_ROUNDS};
ghost use Rattle.leak_round.specs.declared.rounds.TheConstants.{MOST_CELLS};

use crate::Changed;
use crate::difference::Difference;
use crate::parts::Parts;
use crate::renewing::{make_room, renew};
use crate::watching::RoundWatches;
use as_graph::{Graph, links_are_sound, ranks_fit};
use dirty_recompute::PlannedRanks;
use leak_round::{Rounds, Touched};
use net_names::{Asn, NoMemory, Vrp};
use origin_validation::States;
use policy_kinds::Kind;
use rank_order::{RankPlan, Ranks};
use roa_table::Vrps;
use route_choice::Steps;
use stability_laws::{
    World, offer_path, one_family, paths_go_on, plans_are_sound, right_by_offers, right_follows,
};
use std::alloc::Global;
use std::sync::ledger::Ledger;

// What holds of links, ranks and routings, by which an edit is planned.
fn change_laws()
    ensures sound { LinksAreSound }
    ensures fit { RanksFit }
    ensures follows { RightFollows kind_policy }
    ensures by_offers { RightByOffers kind_policy }
    ensures offer { OfferPath kind_policy }
    ensures one { OneFamily kind_policy }
    ensures go_on { PathsGoOn kind_policy }
{
    links_are_sound();
    ranks_fit();
    right_follows::<Kind>();
    right_by_offers::<Kind>();
    offer_path::<Kind>();
    one_family::<Kind>();
    paths_go_on::<Kind>();
}

// What the ranks become in the graph of an edited world: what they are if they stay, and else what is found.
fn plan_ranks(
    alloc: Global,
    graph: &Graph,
    difference: &Difference<'_>,
    ranks: &mut Ranks,
) -> Result<RankPlan, NoMemory>
    requires no_cycle { HasNoProviderCycle (relation graph.now) }
    requires fits { (a : ℕ) → has graph.now a ≡ true → occurs a difference.now.ends.now ≡ false →
        RankFits (relation graph.now) (rank_at ranks.old) a }
    requires only { (a : ℕ) → has graph.now a ≡ false → occurs a difference.now.ends.now ≡ false →
        rank_at ranks.old a ≡ 0 }
    requires stay { StayIf difference.now.kept graph.now ranks.old }
    ensures same { ranks.new.by_as ≡ ranks.old.by_as }
    ensures plan { IfOk result (IsLastPlan ranks.new) }
    ensures ranks { IfOk result (λ p. (a : ℕ) → IsRank (relation graph.now) a (rank_after ranks.new p a)) }
{
    if difference.kept {
        return Ok(RankPlan::none(alloc));
    }
    ranks.plan(alloc, graph, difference.ends)
}

/// Takes ranks, rounds and watches to an edited world, and to an edit of announcements, if there is one. It
/// says how many entries differ.
pub fn change<L: Ledger>(
    alloc: Global,
    world: &World<'_, Kind, States<'_>>,
    difference: &Difference<'_>,
    ranks: &mut Ranks,
    rounds: &mut Rounds,
    watches: &mut Vec<RoundWatches>,
    steps: &mut Steps<L>,
) -> Result<Changed, NoMemory>
    requires closed { is_open rounds.old ≡ false }
    requires few_cells { live_count (pool_of rounds.old) ≤ MOST_CELLS }
    requires few { round_count rounds.old ≤ MOST_ROUNDS }
    requires no_cycle { HasNoProviderCycle (relation world.now.graph.now) }
    requires seeds { IsSeedChange (plan_of rounds.old) world.now.graph.now difference.now.ends.now
        (option_copied difference.now.edit) }
    requires stay { StayIf difference.now.kept world.now.graph.now ranks.old }
    requires from { (old : AGround) × BelongTo old ranks.old rounds.old watches.old.items
        × DiffersAround old (ground_in world.now) rounds.old difference.now.ends.now
        (touches difference.now.touched.now) }
    ensures belong { OnOk result (BelongTo (ground_in world.now) ranks.new rounds.new watches.new.items) }
    ensures changed { IfOk result (λ c. HasChanges (plan_of rounds.new) (round_count rounds.new)
        (kept_rounds rounds.old) (kept_rounds rounds.new) c.routes) }
    ensures plan { OnOk result (plan_of rounds.new ≡
        plan_edited (option_copied difference.now.edit) (plan_of rounds.old)) }
    ensures quick { OnOk result (AreFewSteps (relation world.now.graph.now) (plan_of rounds.old) (plan_of rounds.new)
        (kept_rounds rounds.old) (kept_rounds rounds.new)
        (λ p a. touches difference.now.touched.now p a ≡ true) (round_count rounds.old) steps.old steps.new) }
    ensures count { round_count rounds.new ≡ round_count rounds.old }
    ensures closed { is_open rounds.new ≡ false }
    ensures addrs { map addrs_in watches.new.items ≡ map addrs_in watches.old.items }
    ensures err { OnErr result
        (AreSeenAlike ranks.old ranks.new rounds.old rounds.new watches.old.items watches.new.items) }
{
    change_laws();
    plans_are_sound(rounds.seed_plan());
    make_room(world.graph, watches)?;
    let rank_plan = plan_ranks(alloc, world.graph, difference, ranks)?;
    let planned = PlannedRanks {
        ranks,
        plan: &rank_plan,
    };
    let (touched, edit) = (difference.touched, difference.edit);
    let plan = rounds.plan(alloc, world, &planned, touched, edit, steps)?;
    ranks.commit(rank_plan);
    let done = rounds.commit(plan);
    plans_are_sound(rounds.seed_plan());
    renew(
        world.graph,
        rounds,
        world.book,
        &done,
        difference.ends,
        watches,
    );
    Ok(Changed {
        routes: done.count(),
    })
}

// The states over all payloads, or over all but one.
fn states_but<'a>(vrps: &'a Vrps, but: Option<Vrp>) -> States<'a>
    ensures { result ≡ less vrps.now but }
{
    match but {
        None => States::of(vrps),
        Some(vrp) => States::without(vrps, vrp),
    }
}

impl Parts {
    // What holds of every simulation: no limit is passed.
    pub(crate) fn is_small(&self)
        ensures { IsSmall self.now.graph self.now.vrps }
    {
        // These three are called for their clauses that say so.
        let _links = self.graph.link_count();
        let _ases = self.graph.as_count();
        let _vrps = self.vrps.len();
    }

    // Takes what is kept to the graph and the policies as they are now, and to all payloads, or to all
    // but one. The ends are the ASes whose presence, links or policy differ; `kept` says that all ranks stay.
    pub(crate) fn change_at<'a, L: Ledger>(
        &mut self,
        alloc: Global,
        ends: &'a [Asn],
        touched: &'a Touched,
        kept: bool,
        but: Option<Vrp>,
        steps: &mut Steps<L>,
    ) -> Result<Changed, NoMemory>
        requires few_cells { live_count (pool_of self.old.rounds) ≤ MOST_CELLS }
        requires no_cycle { HasNoProviderCycle (relation self.old.graph) }
        requires stay { StayIf kept self.old.graph self.old.ranks }
        requires from { (old : AGround) × BelongTo old self.old.ranks self.old.rounds self.old.watches.items
            × DiffersAround old (ground_less self.old but) self.old.rounds ends.now (touches touched.now) }
        ensures changed { IfOk result (λ c. IsChanged self.old self.new but c.routes) }
        ensures quick { OnOk result (IsQuickChange self.old self.new (λ p a. touches touched.now p a ≡ true)
            steps.old steps.new) }
        ensures err { OnErr result (IsUnchanged self.old self.new) }
    {
        let states = states_but(&self.vrps, but);
        let world = World {
            graph: &self.graph,
            book: &self.book,
            states: &states,
        };
        let difference = Difference {
            ends,
            touched,
            kept,
            edit: None,
        };
        let (ranks, rounds, watches) = (&mut self.ranks, &mut self.rounds, &mut self.watches);
        change(alloc, &world, &difference, ranks, rounds, watches, steps)
    }
}
