//! A plan carried out.
ghost use Rattle.std.specs.Prelude.{◌≡◌, ◌==◌, ℕ, length, None, Some, if◌then◌else◌};
ghost use Rattle.std.specs.List.Sorted.{IsStrictlyIncreasing};
ghost use Rattle.std.specs.FinMap as map;
ghost use Rattle.net_names.specs.Prelude.{occurs};
ghost use Rattle.cycle_check.specs.Prelude.{rank_by};
ghost use Rattle.rank_order.specs.Lists.{AreAtMost};
ghost use Rattle.rank_order.specs.Ranks.{Lacks};
ghost use Rattle.rank_order.specs.Plans.{IsLastPlan, entry_after};

use crate::plan::RankPlan;
use crate::ranks::Ranks;
use cycle_check::place_in;
use net_names::Asn;

// Gives each of the ASes its rank.
fn put_all(ranks: &mut Ranks, ases: &[Asn], given: &[u32])
    requires rising { IsStrictlyIncreasing ases.now }
    requires each { length given.now ≡ length ases.now }
    requires room { AreAtMost ranks.old.spare (Lacks ranks.old ases.now) }
    ensures { (a : ℕ) → map.get ranks.new.by_as a ≡ (if occurs a ases.now
        then Some (rank_by ases.now given.now a)
        else map.get ranks.old.by_as a) }
{
    for at in 0..ases.len() {
        ranks.put(ases[at], given[at]);
    }
}

// Takes an AS out, if it is not one of these.
fn take_other(ranks: &mut Ranks, ases: &[Asn], asn: Asn)
    requires rising { IsStrictlyIncreasing ases.now }
    ensures { (a : ℕ) → map.get ranks.new.by_as a ≡ (if occurs a ases.now
        then map.get ranks.old.by_as a
        else if asn == a then None else map.get ranks.old.by_as a) }
{
    if place_in(ases, asn) == ases.len() {
        ranks.take(asn);
    }
}

// Takes out those ends that are none of the ASes.
fn take_others(ranks: &mut Ranks, ases: &[Asn], ends: &[Asn])
    requires rising { IsStrictlyIncreasing ases.now }
    ensures { (a : ℕ) → map.get ranks.new.by_as a ≡ (if occurs a ases.now
        then map.get ranks.old.by_as a
        else if occurs a ends.now then None else map.get ranks.old.by_as a) }
{
    for asn in ends {
        take_other(ranks, ases, *asn);
    }
}

impl Ranks {
    /// Carries a plan out: afterwards the ranks are those of the plan's graph. Takes no memory.
    pub fn commit(&mut self, plan: RankPlan)
        requires { IsLastPlan self.old plan }
        ensures { (a : ℕ) → map.get self.new.by_as a ≡ entry_after self.old plan a }
    {
        put_all(self, &plan.ases, &plan.ranks);
        take_others(self, &plan.ases, &plan.ends);
    }
}
