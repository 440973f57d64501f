//! Plans made for a graph.
ghost use Rattle.std.specs.Prelude.{◌≡◌, ℕ, true, false, is_some, IfOk, IfSome};
ghost use Rattle.std.specs.FinMap as map;
ghost use Rattle.std.specs.List.Sorted.{IsStrictlyIncreasing};
ghost use Rattle.net_names.specs.Prelude.{occurs};
ghost use Rattle.as_graph.specs.Prelude.{relation, has, HasNoProviderCycle, RankFits, IsRank};
ghost use Rattle.cycle_check.specs.Prelude.{numbers_of, ranks_of};
ghost use Rattle.rank_order.specs.Ranks.{rank_at};
ghost use Rattle.rank_order.specs.Plans.{IsLastPlan, IsPlanFor, entry_after, rank_after};

use crate::attempt::tried;
use crate::check::{is_rising, is_sound};
use crate::plan::RankPlan;
use crate::ranks::{Ranks, numbers, ranks_in};
use as_graph::{Graph, fitting_are_ranks, links_are_sound};
use cycle_check::{RankedAs, Ranking, rank_ases};
use net_names::{Asn, NoMemory};
use std::alloc::{AllocError, Global};

// The plan that numbers these ASes, if they rise and each has a rank.
fn plan_of(
    alloc: Global,
    ases: Vec<Asn>,
    ranks: Vec<u32>,
    ends: &[Asn],
) -> Result<Option<RankPlan>, AllocError>
    ensures { IfOk result (λ found. IfSome found (λ p. p.ends.items ≡ ends.now)) }
{
    let ends = Vec::from_slice(alloc, ends)?;
    if is_rising(&ases) && ranks.len() == ases.len() {
        Ok(Some(RankPlan { ases, ranks, ends }))
    } else {
        Ok(None)
    }
}

// A plan that numbers the ends and the ASes above them whose number changes, if that suffices.
fn small_plan(
    alloc: Global,
    graph: &Graph,
    ranks: &Ranks,
    ends: &[Asn],
) -> Result<Option<RankPlan>, AllocError>
    requires fits { (a : ℕ) → has graph.now a ≡ true → occurs a ends.now ≡ false →
        RankFits (relation graph.now) (rank_at ranks.now) a }
    requires only { (a : ℕ) → has graph.now a ≡ false → occurs a ends.now ≡ false → rank_at ranks.now a ≡ 0 }
    ensures { IfOk result (λ found. IfSome found (IsPlanFor graph.now ends.now ranks.now)) }
{
    fitting_are_ranks();
    links_are_sound();
    let attempt = tried(alloc, graph, ranks, ends)?;
    match plan_of(alloc, attempt.ases, attempt.ranks, ends)? {
        Some(plan) if is_sound(graph, &plan, ranks, ends) => Ok(Some(plan)),
        _ => Ok(None),
    }
}

// The plan that numbers these ASes.
fn plan_with(alloc: Global, ranked: &[RankedAs], ends: &[Asn]) -> Result<RankPlan, AllocError>
    requires { IsStrictlyIncreasing (numbers_of ranked.now) }
    ensures ases { IfOk result (λ p. p.ases.items ≡ numbers_of ranked.now) }
    ensures ranks { IfOk result (λ p. p.ranks.items ≡ ranks_of ranked.now) }
    ensures ends { IfOk result (λ p. p.ends.items ≡ ends.now) }
{
    Ok(RankPlan {
        ases: numbers(alloc, ranked)?,
        ranks: ranks_in(alloc, ranked)?,
        ends: Vec::from_slice(alloc, ends)?,
    })
}

// The plan that numbers all ASes of the graph.
fn whole_plan(
    alloc: Global,
    graph: &Graph,
    ranks: &Ranks,
    ends: &[Asn],
) -> Result<RankPlan, NoMemory>
    requires no_cycle { HasNoProviderCycle (relation graph.now) }
    requires only { (a : ℕ) → has graph.now a ≡ false → occurs a ends.now ≡ false → rank_at ranks.now a ≡ 0 }
    ensures { IfOk result (IsPlanFor graph.now ends.now ranks.now) }
{
    match rank_ases(alloc, graph)? {
        Ranking::Ranks(ranked) => Ok(plan_with(alloc, &ranked.ases, ends)?),
        Ranking::Cycle(_) => unreachable!(),
    }
}

// The plan for a graph: a small one if that suffices, and else the one that numbers all ASes.
fn plan_for(alloc: Global, graph: &Graph, ranks: &Ranks, ends: &[Asn]) -> Result<RankPlan, NoMemory>
    requires no_cycle { HasNoProviderCycle (relation graph.now) }
    requires fits { (a : ℕ) → has graph.now a ≡ true → occurs a ends.now ≡ false →
        RankFits (relation graph.now) (rank_at ranks.now) a }
    requires only { (a : ℕ) → has graph.now a ≡ false → occurs a ends.now ≡ false → rank_at ranks.now a ≡ 0 }
    ensures { IfOk result (IsPlanFor graph.now ends.now ranks.now) }
{
    match small_plan(alloc, graph, ranks, ends)? {
        Some(plan) => Ok(plan),
        None => whole_plan(alloc, graph, ranks, ends),
    }
}

impl Ranks {
    /// What the ranks become with a graph that was edited. `ends` are the ASes whose links or whose
    /// marks differ from those of the graph that the ranks were counted for: at each other AS of the
    /// graph the ranks still fit (0 without customers, else one more than the greatest rank of a
    /// customer), and none but the ASes of the graph and of `ends` has a rank above 0.
    ///
    /// The ranks stay as they are, and get room for what the plan adds. The only refusal is want of
    /// memory. The work is that of the ends, of those above them whose ranks change, and of the
    /// neighbours of these; where ranks change again and again on the way, it is that of `build`.
    pub fn plan(&mut self, alloc: Global, graph: &Graph, ends: &[Asn]) -> Result<RankPlan, NoMemory>
        requires no_cycle { HasNoProviderCycle (relation graph.now) }
        requires fits { (a : ℕ) → has graph.now a ≡ true → occurs a ends.now ≡ false →
            RankFits (relation graph.now) (rank_at self.old) a }
        requires only { (a : ℕ) → has graph.now a ≡ false → occurs a ends.now ≡ false → rank_at self.old a ≡ 0 }
        ensures same { self.new.by_as ≡ self.old.by_as }
        ensures plan { IfOk result (IsLastPlan self.new) }
        ensures ranks { IfOk result (λ p. (a : ℕ) → IsRank (relation graph.now) a (rank_after self.new p a)) }
        ensures ases { ((a : ℕ) → occurs a ends.now ≡ false → is_some (map.get self.old.by_as a) ≡ has graph.now a) →
            IfOk result (λ p. (a : ℕ) → is_some (entry_after self.new p a) ≡ has graph.now a) }
    {
        let plan = plan_for(alloc, graph, self, ends)?;
        self.make_room(plan.ases.len())?;
        Ok(plan)
    }
}
