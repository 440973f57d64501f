//! A table is cleared once nobody announces anything.

ghost use Rattle.std.specs.Prelude.{◌≡◌, ℕ, true, false, None, OnOk, IfOk};
ghost use Rattle.net_names.specs.Prelude.{occurs};
ghost use Rattle.as_graph.specs.Prelude.{has};
ghost use Rattle.route_choice.specs.Prelude.{held_at, HasRoomForChanges};
ghost use Rattle.dirty_recompute.specs.Clearing.{AreCleared, IsCleared, TakesAway};
ghost use Rattle.dirty_recompute.specs.Queues.{IsIn};
ghost use Rattle.dirty_recompute.specs.Resources.{SameTable};

use as_graph::Graph;
use net_names::{Asn, NoMemory};
use route_choice::{Overlay, Table};
use std::alloc::Global;

/// Whether one of the ASes holds something.
pub(crate) fn holds_any(table: &Table, ases: &[Asn]) -> bool {
    for asn in ases {
        if table.get(*asn).is_some() {
            return true;
        }
    }
    false
}

// Takes away what an AS holds, if anything. The place where it may stand in the table is a hint.
fn clear_at(asn: Asn, place: usize, table: &Table, overlay: &mut Overlay) -> Result<(), NoMemory>
    requires { TakesAway table.now overlay.old }
    ensures { OnOk result (AreCleared table.now overlay.old overlay.new (λ a. a ≡ asn)) }
{
    if table.get_near(asn, place).is_some() {
        overlay.room_over(table, 1)?;
        let _ = overlay.exchange_near(asn, place, None);
    }
    Ok(())
}

// Takes away what these ASes hold.
fn clear(ases: &[Asn], table: &Table, overlay: &mut Overlay) -> Result<(), NoMemory>
    requires { TakesAway table.now overlay.old }
    ensures { OnOk result (AreCleared table.now overlay.old overlay.new (IsIn ases.now)) }
{
    for (place, asn) in ases.iter().enumerate() {
        clear_at(*asn, place, table, overlay)?;
    }
    Ok(())
}

/// The changes that take away all entries of a table, which stand only at ASes of the graph and at those
/// in `touched`. The table stays, and gets room for the changes.
pub(crate) fn clear_all(
    alloc: Global,
    graph: &Graph,
    touched: &[Asn],
    table: &mut Table,
) -> Result<Overlay, NoMemory>
    requires { (b : ℕ) → has graph.now b ≡ false → occurs b touched.now ≡ false → held_at table.old b ≡ None }
    ensures cleared { IfOk result (IsCleared table.old) }
    ensures spare { IfOk result (HasRoomForChanges table.new) }
    ensures table { SameTable table.old table.new }
{
    let mut overlay = Overlay::new(alloc);
    clear(graph.rows(), &*table, &mut overlay)?;
    clear(touched, &*table, &mut overlay)?;
    table.room_for(&overlay)?;
    Ok(overlay)
}
