//! ASes that wait, each under its rank, in a set: the small form of a priority queue, which turns into the bitmap of
//! spots.rt once many wait.

ghost use Rattle.std.specs.Prelude.{◌≡◌, ℕ, Some, []};

use crate::planned_ranks::PlannedRanks;
use crate::way::Way;
use net_names::{Asn, NoMemory};
use std::alloc::Global;
use std::collections::BTreeSet;

/// ASes that wait, each under its rank. One AS alone takes no memory, and asks for no rank.
#[derive(Drop)]
pub(crate) struct Few {
    // The one that waits, where there is just one.
    pub one: Option<Asn>,
    // All that wait, where there are more.
    pub many: BTreeSet<(u32, Asn)>,
    ghost alone: { (a : ℕ) → one ≡ Some a → many.keys ≡ [] },
}

impl Few {
    ghost use Rattle.std.specs.Prelude.{true, false, None, OnOk, OnErr, IfOk, IfSome, IfNone};
    ghost use Rattle.std.specs.BTreeSet as keys;
    ghost use Rattle.dirty_recompute.specs.PlannedRanks.{rank_of};
    ghost use Rattle.dirty_recompute.specs.Spots.{key_cmp};
    ghost use Rattle.dirty_recompute.specs.Fews.{few_has, AreKeys, HasTurned, IsNextKey, IsNextOf};

    /// Nobody waits.
    pub(crate) fn new(alloc: Global) -> Few
        ensures { (rank : ℕ → ℕ) (k : ℕ × ℕ) → few_has rank result k ≡ false }
    {
        Few {
            one: None,
            many: BTreeSet::new(alloc),
        }
    }

    // Puts an AS under its rank into a set.
    fn put_in(many: &mut BTreeSet<(u32, Asn)>, key: (u32, Asn)) -> Result<(), NoMemory>
        ensures ok { OnOk result (keys.Updates key_cmp many.old many.new key true) }
        ensures err { OnErr result (many.new.keys ≡ many.old.keys) }
    {
        many.insert(key)?;
        Ok(())
    }

    /// Puts an AS under its rank into them.
    pub(crate) fn put(&mut self, ranks: &PlannedRanks, asn: Asn) -> Result<(), NoMemory>
        ensures { OnOk result (HasTurned (few_has (rank_of ranks.now) self.old) (few_has (rank_of ranks.now) self.new)
            (rank_of ranks.now asn, asn) true) }
    {
        match self.one {
            Some(one) => {
                Few::put_in(&mut self.many, (ranks.rank(one), one))?;
                self.one = None;
                Few::put_in(&mut self.many, (ranks.rank(asn), asn))
            }
            None => {
                if self.many.is_empty() {
                    self.one = Some(asn);
                    Ok(())
                } else {
                    Few::put_in(&mut self.many, (ranks.rank(asn), asn))
                }
            }
        }
    }

    /// Whether at most so many wait.
    pub(crate) fn is_within(&self, most: usize) -> bool
        ensures { result ≡ false → self.now.one ≡ None }
    {
        match self.one {
            Some(_) => true,
            None => self.many.len() <= most,
        }
    }

    /// The pairs of the set.
    pub(crate) fn keys(&self, alloc: Global) -> Result<Vec<(u32, Asn)>, NoMemory>
        ensures { IfOk result (λ v. v.items ≡ self.now.many.keys) }
    {
        let keys = self.many.iter().copied().collect(alloc)?;
        Ok(keys)
    }

    // Takes the next pair out of a set, on this way.
    fn pop_of(many: &mut BTreeSet<(u32, Asn)>, way: Way) -> Option<(u32, Asn)>
        ensures member { IfSome result (λ k. keys.contains key_cmp many.old k ≡ true) }
        ensures updates { IfSome result (λ k. keys.Updates key_cmp many.old many.new k false) }
        ensures next { IfSome result (IsNextKey way (keys.contains key_cmp many.old)) }
        ensures none { IfNone result ((k : ℕ × ℕ) → keys.contains key_cmp many.old k ≡ false) }
    {
        match way {
            Way::Up => many.pop_first(),
            Way::Down => many.pop_last(),
        }
    }

    /// Takes the AS out that comes next on this way.
    pub(crate) fn pop(&mut self, way: Way) -> Option<Asn>
        ensures taken { (rank : ℕ → ℕ) → AreKeys rank (few_has rank self.old) →
            IfSome result (IsNextOf way rank (few_has rank self.old) (few_has rank self.new)) }
        ensures none { (rank : ℕ → ℕ) → IfNone result ((k : ℕ × ℕ) → few_has rank self.old k ≡ false) }
    {
        match self.one {
            Some(asn) => {
                self.one = None;
                Some(asn)
            }
            None => match Few::pop_of(&mut self.many, way) {
                Some((_, asn)) => Some(asn),
                None => None,
            },
        }
    }
}
