//! Plans of what changes after an edit.

ghost use Rattle.std.specs.Prelude.{◌≡◌, [], false, IfOk, OnErr};
ghost use Rattle.std.specs.Option.{option_copied};
ghost use Rattle.leak_round.specs.Plans.{CanPlan, IsPlanned, SeemsSame};
ghost use Rattle.leak_round.specs.Rounds.{is_open};

use super::Rounds;
use crate::changes::{Change, undo_changes};
use crate::edited::drop_seeds;
use crate::finding::Finding;
use crate::own_seeds::fill_own_seeds;
use crate::plans::RoundsPlan;
use crate::touched::Touched;
use crate::whole_edit::{edit_if_any, find_and_tell};
use dirty_recompute::PlannedRanks;
use net_names::NoMemory;
use policy_laws::{OriginStates, RoutePolicy};
use route_choice::Steps;
use stability_laws::{SeedEdit, World};
use std::alloc::Global;
use std::sync::ledger::Ledger;

// For the changes of how many tables a plan has room at first.
const FEW_TABLES: usize = 8;

// No changes, and room for those of a few tables.
fn no_changes(alloc: Global) -> Result<Vec<Change>, NoMemory>
    ensures { IfOk result (λ v. v.items ≡ []) }
{
    let changes = Vec::with_capacity(alloc, FEW_TABLES)?;
    Ok(changes)
}

impl Rounds {
    /// A plan of what changes of the tables after an edit, where no plan is open. The world is that after
    /// the edit, and `edit` is that of who announces what, if there is one. `touched` has, prefix by
    /// prefix, the ASes that may hold something else than what is right there; which seeds differ the
    /// call finds by itself. With the changes in place each table is the one stable routing of its round,
    /// and each change is at an AS whose entry differs. What is kept stays until the plan is put in place.
    ///
    /// The graph has no provider cycle, and the planned ranks are its ranks, by the last plan of them.
    /// At most 20,000,000 cells are live. An edited announcement is of a prefix of the plan, its path has
    /// 1 to 64 numbers, and the plan stays within the limits; the ASes that announce something are in the
    /// graph. Each table holds entries only for its ASes and for touched ones, and is right at all others.
    ///
    /// For each round and prefix it takes at most two steps for each AS that is touched, whose seed
    /// differs, or that has a neighbour in the graph whose entry changes. `Err` where there is not enough
    /// memory; then no plan is open, and all is as before.
    pub fn plan<P: RoutePolicy, V: OriginStates, L: Ledger>(
        &mut self,
        alloc: Global,
        world: &World<'_, P, V>,
        ranks: &PlannedRanks<'_>,
        touched: &Touched,
        edit: Option<&SeedEdit>,
        steps: &mut Steps<L>,
    ) -> Result<RoundsPlan, NoMemory>
        requires { CanPlan P.meaning V.state_of self.old world.now ranks.now touched.now (option_copied edit) }
        ensures planned { IfOk result (IsPlanned P.meaning V.state_of self.old self.new world.now touched.now
            (option_copied edit.entry) steps.old steps.new) }
        ensures stays { SeemsSame self.old self.new }
        ensures err { OnErr result (is_open self.new ≡ false) }
    {
        // `as_count` is called for its clause that there are at most 150,000 ASes.
        let _count = world.graph.as_count();
        let mut changes = no_changes(alloc)?;
        fill_own_seeds(alloc, &self.plan, &self.announced, &mut self.own)?;
        let before = self.pool.live();
        let edited = edit_if_any(alloc, &self.plan, &self.announced, edit, &mut self.pool)?;
        let finding = Finding {
            alloc,
            world,
            ranks,
            plan: &self.plan,
            announced: self.announced.as_slice(),
            own: self.own.as_slice(),
            edited: &edited,
            touched,
        };
        let (tables, pool) = (&mut self.tables, &mut self.pool);
        match find_and_tell(&finding, tables, &mut changes, pool, steps) {
            Ok(done) => {
                self.planned = true;
                Ok(RoundsPlan {
                    changes,
                    edited,
                    done,
                    before,
                })
            }
            Err(_) => {
                undo_changes(changes, &mut self.pool);
                drop_seeds(edited, &mut self.pool);
                Err(NoMemory)
            }
        }
    }
}
