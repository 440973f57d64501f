//! The numbers of a JSON text.
ghost use Rattle.std.specs.Prelude.{◌≡◌, ◌<◌, ◌==◌, false, length, option_map, slice_index, true, IsTrue};
ghost use Rattle.serde_json.specs.Find.{as_u64};
ghost use Rattle.serde_json.specs.Read.{number_of, number_from, float_of};

use fast_float::Numeral;

// The numbers that are no integers from 0 to 2^64 - 1 are floats and negative integers, of which nothing is asked but
// that a float holds them.
fn as_float(negative: bool, numeral: &Numeral<'_>) -> Option<Option<u64>>
    ensures { result ≡ option_map as_u64 (float_of negative numeral.now) }
{
    if numeral.to_float::<f64>(negative).is_finite() {
        Some(None)
    } else {
        None
    }
}

// The number that a numeral without a minus writes.
fn unsigned(numeral: &Numeral<'_>) -> Option<Option<u64>>
    ensures { result ≡ option_map as_u64 (number_from false numeral.now) }
{
    match numeral.to_u64() {
        Some(n) => Some(Some(n)),
        None => as_float(false, numeral),
    }
}

// The number that a numeral behind a minus writes.
fn negative(numeral: &Numeral<'_>) -> Option<Option<u64>>
    ensures { result ≡ option_map as_u64 (number_from true numeral.now) }
{
    if let Some(n) = numeral.to_i64(true) {
        if n < 0 {
            return Some(None);
        }
    }
    as_float(true, numeral)
}

// Whether the bytes begin with a minus.
fn has_minus(bytes: &[u8]) -> bool
    ensures value { result ≡ (slice_index bytes.now 0 == 45) }
    ensures len { IsTrue result → 0 < length bytes.now }
{
    !bytes.is_empty() && bytes[0] == b'-'
}

/// The number that a text writes, where a float or 64 bits hold it: `Some(None)` where it is no integer from 0 to 2^64 - 1.
pub(crate) fn whole_number(text: &str) -> Option<Option<u64>>
    ensures { result ≡ option_map as_u64 (number_of text.now) }
{
    let bytes = text.as_bytes();
    if has_minus(bytes) {
        negative(&Numeral::scan(&bytes[1..]))
    } else {
        unsigned(&Numeral::scan(bytes))
    }
}
