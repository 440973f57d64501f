//! Plans that are put in place or given up.

ghost use Rattle.std.specs.Prelude.{◌≡◌, ℕ, ◌+◌, ◌≤◌, false};
ghost use Rattle.std.specs.Ordering.{nat_cmp};
ghost use Rattle.net_names.specs.Prelude.{PrefixValue};
ghost use Rattle.path_pool.specs.Pool.{live_count};
ghost use Rattle.stability_laws.specs.Prelude.{ListsRising};
ghost use Rattle.leak_round.specs.Changes.{HasChanges};
ghost use Rattle.leak_round.specs.Rounds.{is_open, plan_of, pool_of, round_count, kept};
ghost use Rattle.leak_round.specs.Plans.{kept_with, plan_after, numbers_added, cells_before, count_told, ases_told, IsTold, IsOpenPlan};

use super::Rounds;
use crate::changes::{commit_changes, undo_changes};
use crate::edited::{drop_seeds, take_seeds};
use crate::plans::{RoundsDone, RoundsPlan};

impl Rounds {
    /// Puts the changes of the open plan in place, and its seeds. Takes no memory. For each changed
    /// entry at most one more cell is live than before the plan, and one for each number of a newly
    /// announced path.
    pub fn commit(&mut self, plan: RoundsPlan) -> RoundsDone
        requires { IsOpenPlan self.old plan }
        ensures closed { is_open self.new ≡ false }
        ensures plan { plan_of self.new ≡ plan_after self.old plan }
        ensures rounds { round_count self.new ≡ round_count self.old }
        ensures kept { (round : ℕ) (prefix : PrefixValue) (a : ℕ) →
            kept self.new round prefix a ≡ kept_with self.old plan round prefix a }
        ensures count { HasChanges (plan_of self.new) (round_count self.new) (kept self.old) (kept self.new)
            (count_told result) }
        ensures told { (round : ℕ) → 1 ≤ round → round ≤ round_count self.new →
            ListsRising nat_cmp (IsTold plan round) (ases_told result round) }
        ensures cells { live_count (pool_of self.new) ≤ cells_before plan + count_told result + numbers_added plan }
    {
        let RoundsPlan {
            changes,
            edited,
            done,
            before: _,
        } = plan;
        commit_changes(&mut self.tables, changes, &mut self.pool);
        take_seeds(
            edited,
            &mut self.plan,
            &mut self.announced,
            &mut self.own,
            &mut self.pool,
        );
        self.planned = false;
        done
    }

    /// Gives the open plan up. Takes no memory. All is as before the plan.
    pub fn undo(&mut self, plan: RoundsPlan)
        requires { IsOpenPlan self.old plan }
        ensures closed { is_open self.new ≡ false }
        ensures plan { plan_of self.new ≡ plan_of self.old }
        ensures rounds { round_count self.new ≡ round_count self.old }
        ensures kept { (round : ℕ) (prefix : PrefixValue) (a : ℕ) →
            kept self.new round prefix a ≡ kept self.old round prefix a }
        ensures cells { live_count (pool_of self.new) ≤ live_count (pool_of self.old) }
    {
        let RoundsPlan {
            changes,
            edited,
            done: _,
            before: _,
        } = plan;
        undo_changes(changes, &mut self.pool);
        drop_seeds(edited, &mut self.pool);
        self.planned = false;
    }
}
