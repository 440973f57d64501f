//! IPv4 prefixes that stand as they are printed.
ghost use Rattle.std.specs.Prelude.{◌≡◌, ◌≤◌, ◌++◌, ◌==◌, ◌&&◌, nat_lt, get_or, length, decimal, Some, IfSome};
ghost use Rattle.net_names.specs.Prelude.{prefix_of};

use crate::plain::behind;
use net_names::{Family, Prefix, read_digits, read_prefix};

// Whether digits have a zero in front that no number needs.
fn leads(digits: &[u8]) -> bool
    ensures { result ≡ (nat_lt 1 (length digits.now) && (get_or digits.now 0 0 == 48)) }
{
    digits.len() > 1 && digits[0] == b'0'
}

// The number up to a limit that a text begins with, as it is printed, and what stands behind it.
fn read_plain(text: &[u8], limit: u64) -> Option<(u64, &[u8])>
    ensures whole { IfSome result (λ p. text.now ≡ decimal p.0 ++ p.1.now) }
    ensures limit { IfSome result (λ p. p.0 ≤ limit) }
{
    let run = read_digits(text, 3);
    if run.len == 0 || run.value > limit {
        return None;
    }
    if leads(&text[..run.len]) {
        return None;
    }
    Some((run.value, &text[run.len..]))
}

// The IPv4 prefix that a text is, where it stands as it is printed.
fn read_printed(text: &[u8]) -> Option<Prefix>
    ensures { IfSome result (λ p. prefix_of text.now ≡ Some p) }
{
    let (a, one) = read_plain(text, 255)?;
    let (b, two) = read_plain(behind(one, b'.')?, 255)?;
    let (c, three) = read_plain(behind(two, b'.')?, 255)?;
    let (d, four) = read_plain(behind(three, b'.')?, 255)?;
    let (len, end) = read_plain(behind(four, b'/')?, 32)?;
    if !end.is_empty() {
        return None;
    }
    let addr = ((a * 256 + b) * 256 + c) * 256 + d;
    let prefix = Prefix::new(Family::V4, addr as u128, len as u8)?;
    Some(prefix)
}

/// The prefix that a text is: most are printed ones of IPv4, which are read at once.
pub(crate) fn read_any(text: &[u8]) -> Option<Prefix>
    ensures { result ≡ prefix_of text.now }
{
    match read_printed(text) {
        Some(prefix) => Some(prefix),
        None => read_prefix(text),
    }
}
