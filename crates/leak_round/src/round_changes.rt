//! The changes of the tables of a round after an edit, table by table.

ghost use Rattle.std.specs.Prelude.{◌≡◌, ℕ, ◌<◌, Some, IsSome, [], ◌∷◌, ◌++◌, length, OnErr, OnOk};
ghost use Rattle.std.specs.Vec.{vec_capacity};
ghost use Rattle.stability_laws.specs.Prelude.{prefixes_of};
ghost use Rattle.route_choice.specs.declared.table.Table.{Table as ATable};
ghost use Rattle.leak_round.specs.Growth.{HasRoomFor};
ghost use Rattle.leak_round.specs.Overlays.{table_in};
ghost use Rattle.leak_round.specs.Found.{AreFoundUpTo, AreSame, IsAdded, IsCutOff, IsPaid};
ghost use Rattle.leak_round.specs.Findings.{AreFoundBy, AreRanked, CanFindInTableBy, CanFindNext, CanFindRound, IsNextFound, IsNoneAdded, IsTableAddedBy};

use crate::changes::Change;
use crate::finding::Finding;
use crate::kept_seeds::keeps_seeds;
use crate::round_prefix::RoundPrefix;
use crate::table_changes::changes_in_round;
use crate::table_seeds::seeds_and_wrong;
use dirty_recompute::PrefixEdit;
use net_names::{Asn, NoMemory};
use path_pool::PathPool;
use policy_laws::{OriginStates, RoutePolicy};
use route_choice::{Overlay, RoundTables, Steps};
use std::alloc::Global;
use std::sync::ledger::Ledger;

// Makes room for one change more.
fn make_place(changes: &mut Vec<Change>) -> Result<(), NoMemory>
    ensures room { OnOk result (length changes.new.items < vec_capacity changes.new) }
    ensures same { changes.new.items ≡ changes.old.items }
{
    changes.reserve(1)?;
    Ok(())
}

// Adds a change in the room that there is.
fn add_change(changes: &mut Vec<Change>, change: Change)
    requires { length changes.old.items < vec_capacity changes.old }
    ensures { changes.new.items ≡ changes.old.items ++ change ∷ [] }
{
    let _ = changes.push(change);
}

// Adds that the table of a prefix in a round has no change.
fn add_none(alloc: Global, at: &RoundPrefix, changes: &mut Vec<Change>) -> Result<(), NoMemory>
    ensures added { OnOk result (IsNoneAdded changes.old.items changes.new.items at.now.round at.now.prefix) }
    ensures err { OnErr result (changes.new.items ≡ changes.old.items) }
{
    make_place(changes)?;
    let overlay = Overlay::new(alloc);
    // `len` is called for its clauses that the ASes with a change are listed, each once.
    let _none = overlay.len();
    add_change(
        changes,
        Change {
            round: at.round,
            prefix: at.prefix,
            overlay,
        },
    );
    Ok(())
}

// Finds the changes of the table of a prefix in a round, for these seeds, where these ASes may hold
// something wrong.
fn find_with_seeds<P: RoutePolicy, V: OriginStates, L: Ledger>(
    finding: &Finding<'_, P, V>,
    at: &RoundPrefix,
    edit: &PrefixEdit<'_>,
    tables: &mut Vec<RoundTables>,
    changes: &mut Vec<Change>,
    pool: &mut PathPool,
    steps: &mut Steps<L>,
) -> Result<(), NoMemory>
    requires ranks { AreRanked finding.now }
    requires there { IsSome (table_in tables.old.items at.now.round at.now.prefix) }
    requires can { (t : ATable) → table_in tables.old.items at.now.round at.now.prefix ≡ Some t →
        CanFindInTableBy P.meaning V.state_of finding.now at.now.prefix edit.now pool.old t }
    requires room { HasRoomFor pool.old 1 }
    ensures added { OnOk result (IsTableAddedBy P.meaning V.state_of finding.now at.now edit.now pool.old pool.new
        tables.old.items tables.new.items changes.old.items changes.new.items steps.old steps.new) }
    ensures more { OnOk result (IsAdded changes.old.items changes.new.items at.now.round at.now.prefix) }
    ensures paid { OnOk result (IsPaid pool.old pool.new changes.old.items changes.new.items 1) }
    ensures cut { IsCutOff pool.old pool.new changes.old.items changes.new.items }
    ensures same { AreSame tables.old.items tables.new.items }
{
    make_place(changes)?;
    let overlay = changes_in_round(finding, at, edit, tables, pool, steps)?;
    add_change(
        changes,
        Change {
            round: at.round,
            prefix: at.prefix,
            overlay,
        },
    );
    Ok(())
}

// Finds the changes of the table of a prefix in a round. Where the seeds stay and nobody is touched it has none. The list
// of ASes is written over.
fn find_change<P: RoutePolicy, V: OriginStates, L: Ledger>(
    finding: &Finding<'_, P, V>,
    at: &RoundPrefix,
    ases: &mut Vec<Asn>,
    tables: &mut Vec<RoundTables>,
    changes: &mut Vec<Change>,
    pool: &mut PathPool,
    steps: &mut Steps<L>,
) -> Result<(), NoMemory>
    requires { CanFindNext P.meaning V.state_of finding.now at.now pool.old tables.old.items changes.old.items
        steps.old }
    ensures found { OnOk result (IsNextFound P.meaning V.state_of finding.now at.now pool.old pool.new
        tables.old.items tables.new.items changes.old.items changes.new.items steps.old steps.new) }
    ensures cut { IsCutOff pool.old pool.new changes.old.items changes.new.items }
    ensures same { AreSame tables.old.items tables.new.items }
{
    let kept = keeps_seeds(finding, at, changes.as_slice());
    if kept && !finding.touched.has_any(at.prefix) {
        return add_none(finding.alloc, at, changes);
    }
    let seeds = seeds_and_wrong(
        finding,
        at,
        tables.as_slice(),
        changes.as_slice(),
        pool,
        kept,
        ases,
    )?;
    let edit = PrefixEdit {
        seeds: seeds.ids(),
        touched: ases.as_slice(),
    };
    find_with_seeds(finding, at, &edit, tables, changes, pool, steps)
}

// Finds the changes of the tables of a round, prefix by prefix.
pub fn find_in_round<P: RoutePolicy, V: OriginStates, L: Ledger>(
    finding: &Finding<'_, P, V>,
    round: u32,
    tables: &mut Vec<RoundTables>,
    changes: &mut Vec<Change>,
    pool: &mut PathPool,
    steps: &mut Steps<L>,
) -> Result<(), NoMemory>
    requires { CanFindRound P.meaning V.state_of finding.now round pool.old tables.old.items changes.old.items
        steps.old }
    ensures found { OnOk result ((first : ℕ) →
        AreFoundBy P.meaning V.state_of finding.now pool.old tables.old.items changes.old.items first steps.old →
        AreFoundBy P.meaning V.state_of finding.now pool.new tables.new.items changes.new.items first steps.new) }
    ensures more { OnOk result (AreFoundUpTo finding.now.plan.now changes.new.items round) }
    ensures paid { OnOk result (IsPaid pool.old pool.new changes.old.items changes.new.items
        (length (prefixes_of finding.now.plan.now))) }
    ensures cut { IsCutOff pool.old pool.new changes.old.items changes.new.items }
    ensures same { AreSame tables.old.items tables.new.items }
{
    let mut ases = Vec::new(finding.alloc);
    let mut place = 0;
    'prefixes: while let Some(prefix) = finding.plan.prefix_at(place) {
        let at = RoundPrefix {
            round,
            prefix,
            place,
        };
        find_change(finding, &at, &mut ases, tables, changes, pool, steps)?;
        place += 1;
    }
    Ok(())
}
