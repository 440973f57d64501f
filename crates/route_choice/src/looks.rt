//! What ASes hold, sought first where they may stand.

ghost use Rattle.std.specs.Prelude.{◌≡◌};
ghost use Rattle.route_choice.specs.Rows.{entry_in};
ghost use Rattle.route_choice.specs.Tables.{held_at, joined};

use crate::slot::Slot;
use crate::{Held, Overlay, Table};
use net_names::Asn;

/// What an AS holds, with the changes in place, sought first at a place.
#[inline(always)]
pub(crate) fn held_near(table: &Table, overlay: &Overlay, asn: Asn, place: usize) -> Option<Held>
    ensures { result ≡ joined table.now overlay.now asn }
{
    match overlay.slot_near(asn, place) {
        Some(change) => change,
        None => held_below(table, asn, place),
    }
}

// What an AS holds in a table, sought first at a place.
#[inline(never)]
fn held_below(table: &Table, asn: Asn, place: usize) -> Option<Held>
    ensures { result ≡ held_at table.now asn }
{
    table.held_near(asn, place)
}

/// What an AS holds, with the changes in place, as a slot, sought first at a place.
#[inline(always)]
pub(crate) fn slot_near(table: &Table, overlay: &Overlay, asn: Asn, place: usize) -> Slot
    ensures { entry_in result ≡ joined table.now overlay.now asn }
{
    match overlay.changes.row_near(asn, place) {
        Some(slot) => slot,
        None => slot_far(table, overlay, asn, place),
    }
}

// What an AS holds, with the changes in place, as a slot.
#[inline(never)]
fn slot_far(table: &Table, overlay: &Overlay, asn: Asn, place: usize) -> Slot
    ensures { entry_in result ≡ joined table.now overlay.now asn }
{
    Slot::of(held_near(table, overlay, asn, place))
}
