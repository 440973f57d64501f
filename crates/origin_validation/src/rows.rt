//! Whether payloads of one prefix are left, and whether one of them matches.
ghost use Rattle.std.specs.Prelude.{◌≡◌, ◌<◌, ◌≤◌, ◌&&◌};
ghost use Rattle.std.specs.List.{list_any};
ghost use Rattle.net_names.specs.Prelude.{covers as covers_of};
ghost use Rattle.roa_table.specs.Prelude.{of_prefix};
ghost use Rattle.origin_validation.specs.Judging.{matches as matches_of};
ghost use Rattle.origin_validation.specs.Leaving.{is_left as is_left_of, stands as stands_of};

use net_names::{Prefix, Vrp, covers};
use roa_table::Vrps;

/// Of more payloads the matching ones are searched for by their maximum lengths.
const MANY: usize = 32;

// Whether the payload is not the one that is left out.
fn is_left(but: &Option<Vrp>, vrp: Vrp) -> bool
    ensures { result ≡ is_left_of but.now vrp }
{
    match but {
        Some(out) => out.cmp(&vrp).is_ne(),
        None => true,
    }
}

/// Whether the payload covers the prefix and is left.
pub(crate) fn counts(but: &Option<Vrp>, prefix: Prefix, vrp: Vrp) -> bool
    ensures { result ≡ (covers_of vrp.prefix prefix && is_left_of but.now vrp) }
{
    covers(vrp.prefix(), prefix) && is_left(but, vrp)
}

/// Whether a payload that covers the prefix matches.
pub(crate) fn matches(prefix: Prefix, origin: u32, vrp: Vrp) -> bool
    ensures { result ≡ matches_of prefix origin vrp }
{
    prefix.len() <= vrp.max() && (vrp.asn() == origin && vrp.asn() != 0)
}

/// Whether one of the payloads is left.
pub(crate) fn has_left(row: &[Vrp], but: &Option<Vrp>) -> bool
    ensures { result ≡ list_any (is_left_of but.now) row.now }
{
    for vrp in row {
        if is_left(but, *vrp) {
            return true;
        }
    }
    false
}

// Whether one of the payloads is left and matches.
fn some_matches(row: &[Vrp], but: &Option<Vrp>, prefix: Prefix, origin: u32) -> bool
    ensures { result ≡ list_any (λ v. is_left_of but.now v && matches_of prefix origin v) row.now }
{
    for vrp in row {
        if matches(prefix, origin, *vrp) && is_left(but, *vrp) {
            return true;
        }
    }
    false
}

// Whether there is a payload, which is in the set and is left.
fn stands(vrps: &Vrps, but: &Option<Vrp>, vrp: Option<Vrp>) -> bool
    ensures { result ≡ stands_of vrps.now but.now vrp }
{
    match vrp {
        Some(vrp) => is_left(but, vrp) && vrps.has(vrp),
        None => false,
    }
}

// Whether one of the outer prefix's payloads is left and matches, by a search for each maximum length.
fn finds_match(vrps: &Vrps, but: &Option<Vrp>, outer: Prefix, prefix: Prefix, origin: u32) -> bool
    requires shorter { outer.len ≤ prefix.len }
    requires positive { 0 < origin }
    ensures { result ≡ list_any
        (λ v. is_left_of but.now v && matches_of prefix origin v) (of_prefix vrps.now outer) }
{
    for max in prefix.len()..outer.family().width() + 1 {
        if stands(vrps, but, Vrp::new(outer, max, origin)) {
            return true;
        }
    }
    vrps.are_sound();
    false
}

/// Whether one of the outer prefix's payloads is left and matches.
pub(crate) fn has_match(
    vrps: &Vrps,
    row: &[Vrp],
    but: &Option<Vrp>,
    outer: Prefix,
    prefix: Prefix,
    origin: u32,
) -> bool
    requires row { row.now ≡ of_prefix vrps.now outer }
    requires shorter { outer.len ≤ prefix.len }
    requires positive { 0 < origin }
    ensures { result ≡ list_any
        (λ v. is_left_of but.now v && matches_of prefix origin v) (of_prefix vrps.now outer) }
{
    if row.len() > MANY {
        finds_match(vrps, but, outer, prefix, origin)
    } else {
        some_matches(row, but, prefix, origin)
    }
}
