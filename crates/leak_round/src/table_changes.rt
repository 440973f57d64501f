//! The changes of one table after an edit.

ghost use Rattle.std.specs.Prelude.{◌≡◌, IsSome, Some, IfOk, OnErr};
ghost use Rattle.path_pool.specs.Pool.{limit_of};
ghost use Rattle.route_choice.specs.declared.table.Table.{Table as ATable};
ghost use Rattle.route_choice.specs.Prelude.{prefix_of};
ghost use Rattle.dirty_recompute.specs.Resources.{IsUndone, SameTable};
ghost use Rattle.leak_round.specs.Growth.{HasRoomFor};
ghost use Rattle.leak_round.specs.Overlays.{table_in};
ghost use Rattle.leak_round.specs.Findings.{AreRanked, AreTableChangesBy, CanFindInTableBy};
ghost use Rattle.leak_round.specs.Found.{AreRoomed, AreSame};

use crate::finding::Finding;
use crate::round_prefix::RoundPrefix;
use dirty_recompute::{PrefixEdit, plan_edit};
use net_names::NoMemory;
use path_pool::PathPool;
use policy_laws::{OriginStates, RoutePolicy};
use route_choice::{Overlay, RoundTables, Steps, Table};
use std::sync::ledger::Ledger;

// The changes of a table, where these ASes may hold something wrong. The table gets room for them.
fn changes_of_table<P: RoutePolicy, V: OriginStates, L: Ledger>(
    finding: &Finding<'_, P, V>,
    edit: &PrefixEdit<'_>,
    table: &mut Table,
    pool: &mut PathPool,
    steps: &mut Steps<L>,
) -> Result<Overlay, NoMemory>
    requires ranks { AreRanked finding.now }
    requires can { CanFindInTableBy P.meaning V.state_of finding.now (prefix_of table.old) edit.now pool.old table.old }
    requires room { HasRoomFor pool.old 1 }
    ensures found { IfOk result (AreTableChangesBy P.meaning V.state_of finding.now (prefix_of table.old) edit.now
        pool.old pool.new table.old table.new steps.old steps.new) }
    ensures same { SameTable table.old table.new }
    ensures limit { limit_of pool.new ≡ limit_of pool.old }
    ensures err { OnErr result (IsUndone pool.old pool.new) }
{
    // `as_count` is called for its clause that there are at most 150,000 ASes.
    let _count = finding.world.graph.as_count();
    let overlay = plan_edit(
        finding.alloc,
        finding.world,
        finding.ranks,
        edit,
        table,
        pool,
        steps,
    )?;
    // `len` is called for its clauses that the ASes with a change are listed, each once.
    let _changes = overlay.len();
    Ok(overlay)
}

// The changes of the table of a prefix in a round.
pub fn changes_in_round<P: RoutePolicy, V: OriginStates, L: Ledger>(
    finding: &Finding<'_, P, V>,
    at: &RoundPrefix,
    edit: &PrefixEdit<'_>,
    tables: &mut Vec<RoundTables>,
    pool: &mut PathPool,
    steps: &mut Steps<L>,
) -> Result<Overlay, NoMemory>
    requires there { IsSome (table_in tables.old.items at.now.round at.now.prefix) }
    requires ranks { AreRanked finding.now }
    requires can { (t : ATable) → table_in tables.old.items at.now.round at.now.prefix ≡ Some t →
        CanFindInTableBy P.meaning V.state_of finding.now at.now.prefix edit.now pool.old t }
    requires room { HasRoomFor pool.old 1 }
    ensures found { IfOk result (λ o. (t u : ATable) →
        table_in tables.old.items at.now.round at.now.prefix ≡ Some t →
        table_in tables.new.items at.now.round at.now.prefix ≡ Some u →
        AreTableChangesBy P.meaning V.state_of finding.now at.now.prefix edit.now pool.old pool.new t u
        steps.old steps.new o) }
    ensures roomed { AreRoomed tables.old.items tables.new.items at.now.round at.now.prefix }
    ensures same { AreSame tables.old.items tables.new.items }
    ensures limit { limit_of pool.new ≡ limit_of pool.old }
    ensures err { OnErr result (IsUndone pool.old pool.new) }
{
    let place = at.round as usize - 1;
    match tables[place].table_mut(at.prefix) {
        Some(table) => changes_of_table(finding, edit, table, pool, steps),
        None => unreachable!(),
    }
}
