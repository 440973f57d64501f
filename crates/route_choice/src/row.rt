//! An AS with its slot.

ghost use Rattle.std.specs.Prelude.{◌≡◌, IfOk};
ghost use Rattle.route_choice.specs.Rows.{empty_rows};

use crate::slot::Slot;
use net_names::{Asn, NoMemory};
use std::alloc::Global;

/// An AS and its entry, or none, in sixteen bytes.
#[derive(Clone, Copy)]
pub(crate) struct Row {
    pub asn: Asn,
    pub slot: Slot,
}

// A row without an entry for each of these ASes, in their order.
pub(crate) fn rows_of(alloc: Global, ases: &[Asn]) -> Result<Vec<Row>, NoMemory>
    ensures { IfOk result (λ v. v.items ≡ empty_rows ases.now) }
{
    let mut rows = Vec::new(alloc);
    rows.reserve(ases.len())?;
    for asn in ases {
        rows.push(Row {
            asn: *asn,
            slot: Slot::Empty,
        })?;
    }
    Ok(rows)
}
