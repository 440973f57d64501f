//! The first fault of a file with too many payloads.
ghost use Rattle.std.specs.Prelude.{◌≡◌, None, Err, IsErr, OnOk, IfErr};
ghost use Rattle.csv.specs.Records.{fields_of};
ghost use Rattle.roa_table.specs.Sets.{set_of};
ghost use Rattle.roa_table.specs.Files.{payloads_in, Gives};
ghost use Rattle.roa_table.specs.Judging.{judged, fault_at};
ghost use Rattle.roa_table.specs.Gathering.{Admits, Faults};

use crate::errors::VrpError;
use crate::record::judge;
use crate::rows::{open, step};
use crate::table::MOST_PAYLOADS;
use csv::ByteRecord;
use net_names::Vrp;
use std::alloc::Global;
use std::collections::BTreeSet;

// Lets the payload of a record in, unless the record has a fault.
fn admit(vrps: &mut BTreeSet<Vrp>, row: u64, fields: &ByteRecord) -> Result<(), VrpError>
    ensures ok { OnOk result
        (Admits row (judged row (fields_of fields.now)) vrps.old.keys vrps.new.keys) }
    ensures err { IfErr result
        (λ e. Faults e (fault_at (set_of vrps.old.keys) row (judged row (fields_of fields.now)))) }
{
    let vrp = judge(row, fields)?;
    let count = vrps.len();
    let known = vrps.contains(&vrp);
    if !known && count >= MOST_PAYLOADS {
        return Err(VrpError::TooMany { row });
    }
    vrps.insert(vrp)?;
    Ok(())
}

/// The first fault of a file that has one.
pub(crate) fn first_fault(alloc: Global, bytes: &[u8]) -> VrpError
    requires { IsErr (payloads_in bytes.now) }
    ensures { Gives (Err result) (payloads_in bytes.now) }
{
    let mut reader = open(alloc, bytes);
    let mut fields = ByteRecord::new(alloc);
    let mut vrps = BTreeSet::new(alloc);
    match step(&mut reader, &mut fields) {
        Ok(true) => {}
        Ok(false) => unreachable!(),
        Err(_) => return VrpError::Memory,
    }
    for row in 2..u64::MAX {
        match step(&mut reader, &mut fields) {
            Ok(true) => match admit(&mut vrps, row, &fields) {
                Ok(()) => {}
                Err(e) => return e,
            },
            Ok(false) => unreachable!(),
            Err(_) => return VrpError::Memory,
        }
    }
    VrpError::Memory
}
