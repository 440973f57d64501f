//! The state over a set without one payload.
ghost use Rattle.std.specs.Prelude.{◌≡◌, if◌then◌else◌};
ghost use Rattle.origin_validation.specs.Judging.{state_of};
ghost use Rattle.origin_validation.specs.Leaving.{less};

use crate::rows::{counts, has_left, has_match, matches};
use net_names::{Asn, Prefix, State, Vrp};
use roa_table::Vrps;

/// Of so few payloads all are looked at, one after the other.
const FEW: usize = 8;

// The state by whether a payload that covers the prefix is left, and whether one of those matches.
fn state_by(found: bool, valid: bool) -> State
    ensures { result ≡ (if valid then State.Valid else if found then State.Invalid else State.NotFound) }
{
    if valid {
        State::Valid
    } else if found {
        State::Invalid
    } else {
        State::NotFound
    }
}

// The state of the prefix with the origin over the set without the payload that is left out, by a look at each
// payload.
fn judge_few(vrps: &Vrps, but: &Option<Vrp>, prefix: Prefix, origin: u32) -> State
    ensures { result ≡ state_of (less vrps.now but.now) prefix origin }
{
    let mut found = false;
    let mut valid = false;
    let mut place = 0usize;
    while place < vrps.len() {
        let row = vrps.payloads_from(place);
        for vrp in row {
            let counted = counts(but, prefix, *vrp);
            let matched = matches(prefix, origin, *vrp);
            found = found | counted;
            valid = valid | (counted & matched);
        }
        place += row.len();
    }
    state_by(found, valid)
}

/// The state of the prefix with the origin over the set without the payload that is left out.
pub(crate) fn judge(vrps: &Vrps, but: &Option<Vrp>, prefix: Prefix, origin: Asn) -> State
    ensures { result ≡ state_of (less vrps.now but.now) prefix origin }
{
    let number = origin.get();
    if vrps.len() <= FEW {
        return judge_few(vrps, but, prefix, number);
    }
    let mut found = false;
    let mut valid = false;
    for len in 0..prefix.len() + 1 {
        let outer = prefix.shortened(len);
        let row = vrps.of_prefix(outer);
        let left = has_left(row, but);
        let matched = has_match(vrps, row, but, outer, prefix, number);
        found = found | left;
        valid = valid | matched;
    }
    vrps.rows_cover(prefix);
    state_by(found, valid)
}
