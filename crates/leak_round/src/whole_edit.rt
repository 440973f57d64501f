//! The changes of all tables after an edit, also of who announces what.

ghost use Rattle.std.specs.Prelude.{◌≡◌, ℕ, ◌≤◌, [], Some, length, option_map, IfOk, OnOk, OnErr};
ghost use Rattle.std.specs.Option.{option_copied};
ghost use Rattle.std.specs.Ordering.{nat_cmp};
ghost use Rattle.path_pool.specs.Pool.{limit_of};
ghost use Rattle.stability_laws.specs.declared.seed_plan.edits.SeedEdit.{SeedEdit as AnEdit};
ghost use Rattle.stability_laws.specs.Prelude.{ListsRising};
ghost use Rattle.dirty_recompute.specs.Resources.{IsUndone};
ghost use Rattle.leak_round.specs.Edited.{CanEdit, HasRoomToEdit, IsEdited};
ghost use Rattle.leak_round.specs.Overlays.{changes_count};
ghost use Rattle.leak_round.specs.Found.{AreSame, IsCutOff};
ghost use Rattle.leak_round.specs.Findings.{AreAllFound, CanFindAll};
ghost use Rattle.leak_round.specs.Plans.{count_told, ases_told};
ghost use Rattle.leak_round.specs.Told.{IsToldOf};

use crate::announced::Announced;
use crate::changes::Change;
use crate::edited::{EditedSeeds, edit_seeds};
use crate::finding::Finding;
use crate::plans::RoundsDone;
use crate::round_changes::find_in_round;
use crate::told::listed;
use net_names::{Asn, NoMemory};
use path_pool::PathPool;
use policy_laws::{OriginStates, RoutePolicy};
use route_choice::{RoundTables, Steps};
use stability_laws::{SeedEdit, SeedPlan};
use std::alloc::Global;
use std::sync::ledger::Ledger;

// The seeds after an edit of who announces what, where there is one.
pub fn edit_if_any(
    alloc: Global,
    plan: &SeedPlan,
    announced: &[Announced],
    edit: Option<&SeedEdit>,
    pool: &mut PathPool,
) -> Result<Option<EditedSeeds>, NoMemory>
    requires can { (e : AnEdit) → option_copied edit ≡ Some e → CanEdit plan.now e }
    requires room { HasRoomToEdit pool.old plan.now announced.now }
    ensures made { IfOk result (IsEdited pool.old pool.new plan.now announced.now (option_copied edit.entry)) }
    ensures limit { limit_of pool.new ≡ limit_of pool.old }
    ensures err { OnErr result (IsUndone pool.old pool.new) }
{
    match edit {
        Some(one) => {
            let seeds = edit_seeds(alloc, plan, announced, one, pool)?;
            Ok(Some(seeds))
        }
        None => Ok(None),
    }
}

// The AS whose announcement is edited, if there is one.
fn edited_asn(edited: &Option<EditedSeeds>) -> Option<Asn>
    ensures { result ≡ option_map (λ e. e.asn) edited.now }
{
    match edited {
        Some(seeds) => Some(seeds.asn),
        None => None,
    }
}

// Finds the changes of the tables of all rounds, round by round, and tells of them.
pub fn find_and_tell<P: RoutePolicy, V: OriginStates, L: Ledger>(
    finding: &Finding<'_, P, V>,
    tables: &mut Vec<RoundTables>,
    changes: &mut Vec<Change>,
    pool: &mut PathPool,
    steps: &mut Steps<L>,
) -> Result<RoundsDone, NoMemory>
    requires can { CanFindAll P.meaning V.state_of finding.now pool.old tables.old.items }
    requires none { changes.old.items ≡ [] }
    ensures found { OnOk result (AreAllFound P.meaning V.state_of finding.now pool.old pool.new
        tables.old.items tables.new.items changes.new.items steps.old steps.new) }
    ensures cut { IsCutOff pool.old pool.new [] changes.new.items }
    ensures same { AreSame tables.old.items tables.new.items }
    ensures count { IfOk result (λ d. count_told d ≡ changes_count changes.new.items) }
    ensures told { IfOk result (λ d. (round : ℕ) → 1 ≤ round → round ≤ length tables.old.items →
        ListsRising nat_cmp (IsToldOf changes.new.items (option_map (λ e. e.asn) finding.now.edited.now) round)
        (ases_told d round)) }
{
    let rounds = tables.len();
    for past in 0..rounds {
        let round = past as u32 + 1;
        find_in_round(finding, round, tables, changes, pool, steps)?;
    }
    listed(
        finding.alloc,
        rounds,
        changes.as_slice(),
        edited_asn(finding.edited),
    )
}
