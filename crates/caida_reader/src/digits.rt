//! An AS number that the digits at the head of a text write.
ghost use Rattle.std.specs.Prelude.{IfSome};
ghost use Rattle.caida_reader.specs.Plain.{BeginsWithAsn};

use net_names::read_digits;

/// The AS number that the field before the first `|` says, and what stands behind that; `None` where the text doesn't begin
/// so.
pub(crate) fn read_asn_field(text: &[u8]) -> Option<(u32, &[u8])>
    ensures { IfSome result (λ p. BeginsWithAsn text.now p.0 p.1.now) }
{
    let run = read_digits(text, 10);
    if run.len == 0 || run.len >= text.len() || text[run.len] != b'|' {
        return None;
    }
    if run.value == 0 || run.value > u32::MAX as u64 {
        return None;
    }
    Some((run.value as u32, &text[run.len + 1..]))
}
