//! Tables that are filled with the entries of an overlay.

ghost use Rattle.std.specs.Prelude.{◌≡◌, ◌≤◌, ℕ, [], false, length, IfOk, IsSome, None, unwrap_or};
ghost use Rattle.net_names.specs.Prelude.{occurs};

use super::Table;
use crate::Overlay;
use crate::row::Row;
use crate::slots::{Slots, take_rows};
use as_places::AsPlaces;
use net_names::{NoMemory, Prefix};
use std::alloc::Global;
use std::rc::Rc;

/// Room for the table of some ASes.
#[derive(Drop)]
pub struct TableRoom {
    alloc: Global,
    ases: Rc<AsPlaces>,
    rows: Vec<Row>,
    ghost empty: { rows.items ≡ [] },
    ghost room: { length ases.value.ases ≤ rows.cap },
}

impl TableRoom {
    ghost use Rattle.route_choice.specs.Tables.{ases_of};

    /// Room for the table of these ASes. The list is shared.
    pub fn of(alloc: Global, ases: &Rc<AsPlaces>) -> Result<TableRoom, NoMemory>
        ensures { IfOk result (λ r. ases_of r ≡ ases.now.value.ases) }
    {
        let shared = ases.clone()?;
        let mut rows = Vec::new(alloc);
        rows.reserve(ases.len())?;
        Ok(TableRoom {
            alloc,
            ases: shared,
            rows,
        })
    }
}

impl Table {
    ghost use Rattle.route_choice.specs.Tables.{ases_of, change_at, held_at, overlay_spare, overlay_uses, prefix_of, table_uses};

    /// The table of a prefix with the entries of an overlay, which has none from then on. All stand at ASes of
    /// the room. The places are hints: where in the overlay each AS of the room may stand. Takes no memory.
    pub fn filled(prefix: Prefix, room: TableRoom, from: &mut Overlay, places: &[u32]) -> Table
        requires { (a : ℕ) → occurs a (ases_of room) ≡ false → unwrap_or (change_at from.old a) None ≡ None }
        ensures prefix { prefix_of result ≡ prefix }
        ensures entries { (a : ℕ) → held_at result a ≡ unwrap_or (change_at from.old a) None }
        ensures uses { (k : ℕ) → table_uses result k ≡ overlay_uses from.old k }
        ensures none { (a : ℕ) → unwrap_or (change_at from.new a) None ≡ None }
        ensures places { (a : ℕ) → IsSome (change_at from.old a) → IsSome (change_at from.new a) }
        ensures nothing_left { (k : ℕ) → overlay_uses from.new k ≡ 0 }
        ensures spare { overlay_spare from.new ≡ overlay_spare from.old }
    {
        let TableRoom { alloc, ases, rows } = room;
        let rows = take_rows(ases.as_slice(), rows, &mut from.changes, places);
        // Each AS stands in an overlay once. So one in which no AS has an entry owns no hold.
        let _count = from.len();
        let slots = Slots::placed(alloc, ases, rows);
        Table { prefix, slots }
    }
}
