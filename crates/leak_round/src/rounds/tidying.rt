//! Rounds with no more cells than they need.

ghost use Rattle.std.specs.Prelude.{◌≡◌, ℕ, suc, ◌-◌, ◌<◌, ◌≤◌, true, false, nat_eq, IsTrue, IsSome, OnOk, OnErr};
ghost use Rattle.std.specs.List.{IsDistinct};
ghost use Rattle.net_names.specs.Prelude.{occurs, PrefixValue};
ghost use Rattle.path_pool.specs.Pool.{live_count};
ghost use Rattle.stability_laws.specs.Prelude.{Setting, has_prefix, AreRounds};
ghost use Rattle.leak_round.specs.Entries.{HasEntries, of_rounds};
ghost use Rattle.leak_round.specs.Limits.{numbers_of};
ghost use Rattle.leak_round.specs.Rounds.{is_open, plan_of, pool_of, round_count, kept};
ghost use Rattle.leak_round.specs.Overlays.{AreFew};
ghost use Rattle.leak_round.specs.declared.rounds.TheConstants.{MOST_CELLS};

use super::{Rounds, closed_rounds};
use crate::announced::announce_all;
use crate::limits::MAX_CELLS;
use crate::moving::{Moving, moved_rounds};
use as_places::AsPlaces;
use net_names::{Asn, NoMemory};
use path_pool::PathPool;
use stability_laws::plans_are_sound;
use std::alloc::Global;

impl Rounds {
    /// Makes the pool anew, where no plan is open. Afterwards no more cells are live than all tables have
    /// entries and the announced paths have numbers, which are at most 20,000,000. What each AS holds
    /// stays, and so does the plan of seeds. No AS chooses anew.
    ///
    /// Each of the ASes is named once, and all that hold something are among them. What they hold is stable
    /// in some world, and of a prefix in a round no more than 150,000 hold something. `Err` where there is
    /// not enough memory; then all is as before.
    pub fn tidy(&mut self, alloc: Global, ases: &[Asn]) -> Result<(), NoMemory>
        requires closed { is_open self.old ≡ false }
        requires apart { IsDistinct nat_eq ases.now }
        requires few { (before : ℕ) (prefix : PrefixValue) → before < round_count self.old →
            IsTrue (has_prefix (plan_of self.old) prefix) → AreFew (kept self.old (suc before) prefix) }
        requires among { (before : ℕ) (prefix : PrefixValue) (a : ℕ) → before < round_count self.old →
            IsTrue (has_prefix (plan_of self.old) prefix) → IsSome (kept self.old (suc before) prefix a) →
            occurs a ases.now ≡ true }
        requires stable { (world : PrefixValue → Setting) ×
            AreRounds world (plan_of self.old) (round_count self.old) (kept self.old) }
        ensures closed { is_open self.new ≡ false }
        ensures plan { plan_of self.new ≡ plan_of self.old }
        ensures count { round_count self.new ≡ round_count self.old }
        ensures kept { (round : ℕ) (prefix : PrefixValue) (a : ℕ) →
            kept self.new round prefix a ≡ kept self.old round prefix a }
        ensures cells { OnOk result (HasEntries (of_rounds (kept self.new))
            (live_count (pool_of self.new) - numbers_of (plan_of self.new))) }
        ensures few { OnOk result (live_count (pool_of self.new) ≤ MOST_CELLS) }
        ensures err { OnErr result (self.new ≡ self.old) }
    {
        let plan = self.plan.copied(alloc)?;
        plans_are_sound(&plan);
        let places = AsPlaces::shared(alloc, ases)?;
        let mut pool = PathPool::new(alloc, MAX_CELLS);
        let announced = announce_all(alloc, &plan, &mut pool)?;
        let moving = Moving {
            alloc,
            ases: &places,
            plan: &plan,
            announced: announced.as_slice(),
            tables: self.tables.as_slice(),
            from: &self.pool,
        };
        let tables = moved_rounds(&moving, &mut pool)?;
        let made = closed_rounds(alloc, pool, plan, announced, tables);
        *self = made;
        Ok(())
    }
}
