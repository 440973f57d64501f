//! The payload of a record.
ghost use Rattle.std.specs.Prelude.{◌≡◌, ◌∷◌, [], option_and_then, ok_or};
ghost use Rattle.csv.specs.Records.{fields_of};
ghost use Rattle.net_names.specs.Prelude.{vrp_at};
ghost use Rattle.roa_table.specs.Judging.{judged, max_of};

use crate::errors::VrpError;
use crate::printed::read_any;
use csv::ByteRecord;
use net_names::{Prefix, Vrp, number, read_vrp_asn};

// The maximum length that a text says for a prefix.
fn read_max(prefix: Prefix, text: &[u8]) -> Option<u64>
    ensures { result ≡ max_of prefix text.now }
{
    if text.is_empty() {
        Some(u64::from(prefix.len()))
    } else {
        number(text, 10, 3)
    }
}

// The payload of a number and a prefix with the maximum length that a text says, in a row of this number.
fn judge_max(row: u64, asn: u32, prefix: Prefix, text: &[u8]) -> Result<Vrp, VrpError>
    ensures { result ≡
        ok_or (option_and_then (λ m. vrp_at prefix m asn) (max_of prefix text.now)) (VrpError.BadMax row) }
{
    match read_max(prefix, text) {
        Some(max) => {
            if max > 128 {
                return Err(VrpError::BadMax { row });
            }
            match Vrp::new(prefix, max as u8, asn) {
                Some(vrp) => Ok(vrp),
                None => Err(VrpError::BadMax { row }),
            }
        }
        None => Err(VrpError::BadMax { row }),
    }
}

/// The payload that three texts say, in a row of this number.
pub(crate) fn judge_texts(row: u64, asn: &[u8], prefix: &[u8], max: &[u8]) -> Result<Vrp, VrpError>
    ensures { result ≡ judged row (asn.now ∷ prefix.now ∷ max.now ∷ []) }
{
    match read_vrp_asn(asn) {
        Some(asn) => match read_any(prefix) {
            Some(prefix) => judge_max(row, asn, prefix, max),
            None => Err(VrpError::BadPrefix { row }),
        },
        None => Err(VrpError::BadAsn { row }),
    }
}

/// The payload of a record, in a row of this number.
pub(crate) fn judge(row: u64, fields: &ByteRecord) -> Result<Vrp, VrpError>
    ensures { result ≡ judged row (fields_of fields.now) }
{
    match fields.get(0) {
        Some(asn) => match fields.get(1) {
            Some(prefix) => match fields.get(2) {
                Some(max) => judge_texts(row, asn, prefix, max),
                None => Err(VrpError::Fields { row }),
            },
            None => Err(VrpError::Fields { row }),
        },
        None => Err(VrpError::Fields { row }),
    }
}
