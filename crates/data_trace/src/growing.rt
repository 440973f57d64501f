//! Room for further places.
ghost use Rattle.std.specs.Prelude.{◌≡◌, ◌+◌, ◌<◌, ◌≤◌, length, OnOk};
ghost use Rattle.data_trace.specs.declared.places.TheConstants.{PLACE_LIMIT};
ghost use Rattle.data_trace.specs.Keeping.{HasRoom};
ghost use Rattle.data_trace.specs.Growing.{AreLong, HaveRoom, StayColumns, AreLinked, StayLinks};

use crate::columns::Columns;
use crate::keeping::Lists;
use as_places::AsPlaces;
use net_names::NoMemory;
use std::alloc::AllocError;

// Makes room in these columns for `more` further places.
fn reserve_columns(columns: &mut Columns, places: usize, more: usize) -> Result<(), AllocError>
    requires few { places + more < PLACE_LIMIT }
    requires long { AreLong places columns.old }
    ensures stay { StayColumns columns.old columns.new }
    ensures room { OnOk result (HaveRoom (places + more) columns.new) }
{
    columns.hops.reserve(more)?;
    columns.marks.reserve(more)?;
    columns.groups.reserve(more)?;
    columns.sums.reserve(places + more)
}

/// Makes room in all columns of a watch for `more` further places. All else stays, whatever the result.
pub fn reserve_all(
    ases: &mut AsPlaces,
    columns: &mut Columns,
    lists: &mut Lists,
    more: usize,
) -> Result<(), NoMemory>
    requires few { length ases.old.ases + more < PLACE_LIMIT }
    requires long { AreLong (length ases.old.ases) columns.old }
    requires linked { AreLinked (length ases.old.ases) lists.old }
    ensures ases { ases.new.ases ≡ ases.old.ases }
    ensures spare { ases.old.spare ≤ ases.new.spare }
    ensures columns { StayColumns columns.old columns.new }
    ensures lists { StayLinks lists.old lists.new }
    ensures ases_room { OnOk result (more ≤ ases.new.spare) }
    ensures columns_room { OnOk result (HaveRoom (length ases.old.ases + more) columns.new) }
    ensures lists_room { OnOk result (HasRoom (length ases.old.ases + more) lists.new) }
{
    let places = ases.len();
    ases.room(more)?;
    reserve_columns(columns, places, more)?;
    lists.reserve(places, more)?;
    Ok(())
}
