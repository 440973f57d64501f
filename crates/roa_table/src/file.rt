//! Files of payloads.
ghost use Rattle.roa_table.specs.Files.{payloads_in, Gives};

use crate::crowd::first_fault;
use crate::errors::VrpError;
use crate::gather::{Stop, gather};
use crate::table::Vrps;
use std::alloc::Global;

/// The payloads of a file in CSV, as the usual validators write it, or the first fault of its first
/// faulty row.
///
/// The first record is the header, whatever it holds. Each later one has an AS number, with or without the
/// letters `AS`, a prefix of either family, and a maximum length, where an empty text means the prefix's
/// own length. Further fields are not read, and may hold any bytes. A payload that stands twice counts
/// once. The errors come as [`VrpError`] says.
pub fn read(alloc: Global, bytes: &[u8]) -> Result<Vrps, VrpError>
    ensures { Gives result (payloads_in bytes.now) }
{
    match gather(alloc, bytes) {
        Ok(vrps) => Ok(Vrps::from_sorted(alloc, vrps)?),
        Err(Stop::Memory) => Err(VrpError::Memory),
        Err(Stop::Crowded) => Err(first_fault(alloc, bytes)),
        Err(Stop::Fault(e)) => Err(e),
    }
}
