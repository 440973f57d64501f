//! The records of a file, one after the other.
ghost use Rattle.std.specs.Prelude.{◌≡◌, List, true, IfOk};
ghost use Rattle.csv.specs.Reading.{records, default_config, strip_bom, is_flexible, Ready};
ghost use Rattle.csv.specs.Records.{fields_of};
ghost use Rattle.roa_table.specs.Standing.{Record, Stands, GoesOn};

use csv::{ByteRecord, ErrorKind, Reader, ReaderBuilder};
use net_names::NoMemory;
use std::alloc::Global;

/// A reader of the records of these bytes, which may have different lengths.
pub(crate) fn open<'a>(alloc: Global, bytes: &'a [u8]) -> Reader<&'a [u8]>
    ensures { Stands result (records default_config (strip_bom bytes.now)) }
{
    ReaderBuilder::new()
        .has_headers(false)
        .flexible(true)
        .from_reader(alloc, bytes)
}

/// Reads the next record, and tells whether there was one.
pub(crate) fn step<'a>(
    reader: &mut Reader<&'a [u8]>,
    fields: &mut ByteRecord,
) -> Result<bool, NoMemory>
    requires ready { Ready reader.old }
    requires flexible { is_flexible reader.old ≡ true }
    ensures { (rest : List Record) → Stands reader.old rest
        → IfOk result (λ found. GoesOn reader.new rest found (fields_of fields.new)) }
{
    match reader.read_byte_record(fields) {
        Ok(found) => Ok(found),
        Err(e) => match e.into_kind() {
            // A reader of bytes that takes records of every length gives none of these errors.
            ErrorKind::UnequalLengths { .. } => unreachable!(),
            ErrorKind::Utf8 { .. } => unreachable!(),
            ErrorKind::Serialize(_) => unreachable!(),
            ErrorKind::Deserialize { .. } => unreachable!(),
            ErrorKind::Io(_) => Err(NoMemory),
            ErrorKind::OutOfMemory => Err(NoMemory),
        },
    }
}
