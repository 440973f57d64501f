//! Payloads in rising order: the payloads of one prefix, and the places between prefixes.
ghost use Rattle.std.specs.Prelude.{◌≡◌, ◌<◌, true, length, take, drop};
ghost use Rattle.roa_table.specs.Lists.{IsRising, is_below as is_below_of, is_to as is_to_of, row_in, are_apart, CutsAt, IsPart};

use net_names::{Prefix, Vrp};

// Whether the payload's prefix is below this one.
fn is_below(prefix: Prefix, vrp: &Vrp) -> bool
    ensures { result ≡ is_below_of prefix vrp.now }
{
    vrp.prefix().cmp(&prefix).is_lt()
}

// Whether the payload's prefix is not above this one.
fn is_to(prefix: Prefix, vrp: &Vrp) -> bool
    ensures { result ≡ is_to_of prefix vrp.now }
{
    !prefix.cmp(&vrp.prefix()).is_lt()
}

// How many payloads have a prefix below this one.
fn count_below(vrps: &[Vrp], prefix: Prefix) -> usize
    requires { IsRising vrps.now }
    ensures { CutsAt (is_below_of prefix) vrps.now result }
{
    vrps.partition_point(|vrp| is_below(prefix, vrp))
}

// How many payloads have this prefix or one below it.
fn count_to(vrps: &[Vrp], prefix: Prefix) -> usize
    requires { IsRising vrps.now }
    ensures { CutsAt (is_to_of prefix) vrps.now result }
{
    // Most prefixes that are asked for have no payload.
    if vrps.is_empty() {
        return 0;
    }
    if !is_to(prefix, &vrps[0]) {
        return 0;
    }
    vrps.partition_point(|vrp| is_to(prefix, vrp))
}

/// The payloads of this prefix.
pub(crate) fn row(vrps: &[Vrp], prefix: Prefix) -> &[Vrp]
    requires { IsRising vrps.now }
    ensures { result.now ≡ row_in prefix vrps.now }
{
    let rest = &vrps[count_below(vrps, prefix)..];
    &rest[..count_to(rest, prefix)]
}

/// A place between two prefixes, or the start: the last one where at least so many payloads stand behind it.
pub(crate) fn part_before(vrps: &[Vrp], few: usize) -> usize
    requires rising { IsRising vrps.now }
    requires some { 0 < length vrps.now }
    requires few { 0 < few }
    ensures within { result < length vrps.now }
    ensures apart { are_apart (take result vrps.now) (drop result vrps.now) ≡ true }
{
    if vrps.len() <= few {
        return 0;
    }
    let at = count_below(vrps, vrps[vrps.len() - few].prefix());
    if at < vrps.len() { at } else { 0 }
}

/// A place between two prefixes near the middle, or the end where there is one prefix alone.
pub(crate) fn middle(vrps: &[Vrp]) -> usize
    requires rising { IsRising vrps.now }
    requires some { 0 < length vrps.now }
    ensures { IsPart vrps.now result }
{
    let prefix = vrps[vrps.len() / 2].prefix();
    let start = count_below(vrps, prefix);
    if start > 0 {
        start
    } else {
        count_to(vrps, prefix)
    }
}
