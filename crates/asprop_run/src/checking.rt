//! The check of a printed table.
ghost use Rattle.std.specs.Prelude.{◌≡◌, ◌++◌, IfOk, OnOk, codes, false, option_copied};
ghost use Rattle.sim_core.specs.Prelude.{base_world};
ghost use Rattle.stability_laws.specs.Prelude.{entry_row};
ghost use Rattle.asprop_run.specs.Replies.{AnswersJob};
ghost use Rattle.asprop_run.specs.Settling.{fact, said};
ghost use Rattle.task_reading.specs.Prelude.{tables_job};

use crate::states::states_at;
use net_names::{Asn, NoMemory, put_bytes};
use reports::put_entry;
use sim_core::{Base, kept_are_stable};
use stability_laws::{Entry, World};
use std::alloc::Global;
use table_check::{Tables, Verdict, check_tables};

// Appends what is said of the first AS that is wrong.
fn put_wrong(
    alloc: Global,
    text: &mut Vec<u8>,
    round: u32,
    asn: Asn,
    holds: Option<&Entry>,
    right: Option<&Entry>,
) -> Result<(), NoMemory>
    ensures { OnOk result (text.new.items ≡ text.old.items
        ++ (said "stable" false ++ (fact "round" round ++ (codes "holds|" ++ (entry_row asn (option_copied holds.entry)
        ++ (codes "right|" ++ entry_row asn (option_copied right.entry))))))) }
{
    let front = format!(in alloc; "stable|no\nround|{round}\nholds|")?;
    put_bytes(text, front.as_bytes())?;
    put_entry(text, asn, holds)?;
    put_bytes(text, b"right|")?;
    put_entry(text, asn, right)
}

/// Makes the answer to a printed table: that it is that of the stable routings, or the first round that is wrong, and there
/// the lowest AS that is wrong, with what it holds and what it should hold. Says whether the table is refused.
pub fn answer_check(
    alloc: Global,
    base: &Base,
    tables: &Tables,
    text: &mut Vec<u8>,
) -> Result<bool, NoMemory>
    ensures { IfOk result (λ refused. AnswersJob (base_world base.now) (tables_job tables.now)
        text.new.items refused (base_world base.now)) }
{
    kept_are_stable();
    let states = states_at(alloc, base.vrps(), base.plan(), tables.prefix)?;
    let world = World {
        graph: base.graph(),
        book: base.book(),
        states: &states,
    };
    let verdict = check_tables(alloc, &world, base.plan(), tables)?;
    text.clear();
    match verdict {
        Verdict::Stable => {
            put_bytes(text, b"stable|yes\n")?;
            Ok(false)
        }
        Verdict::Wrong { round, asn, right } => {
            put_wrong(
                alloc,
                text,
                round,
                asn,
                tables.rows.held(round, asn),
                right.as_ref(),
            )?;
            Ok(true)
        }
    }
}
