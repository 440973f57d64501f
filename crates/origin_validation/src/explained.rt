//! The state of a prefix with an origin, and the payloads that cover the prefix.
ghost use Rattle.std.specs.Prelude.{◌≡◌, IfOk};
ghost use Rattle.roa_table.specs.Prelude.{covering as covering_of};
ghost use Rattle.origin_validation.specs.Judging.{state_of};

use crate::judging::judge;
use net_names::{Asn, NoMemory, Prefix, State};
use roa_table::{Covering, Vrps};
use std::alloc::Global;

/// The state of the prefix with the origin, by all payloads of the set: `NotFound` where none covers the
/// prefix, `Valid` where one that covers it allows the length and names the origin, and else `Invalid`. A payload
/// with number 0 names no origin. It takes no memory, and looks at each payload where there are at most 8. It searches
/// a larger set once for each length up to the prefix's, and at most once more for each length from there where
/// a prefix has many payloads.
/// Source: RFC 6811, section 2, and RFC 6483, section 4.
pub fn state(vrps: &Vrps, prefix: Prefix, origin: Asn) -> State
    ensures { result ≡ state_of vrps.now prefix origin }
{
    judge(vrps, &None, prefix, origin)
}

/// A state, and the payloads that cover the prefix, in rising order of prefix length, maximum length
/// and number.
#[derive(Drop)]
pub struct Explained {
    /// The state.
    pub state: State,
    /// The payloads that cover the prefix.
    pub covering: Covering,
}

/// The state of the prefix with the origin, with all payloads that cover the prefix.
pub fn explain(
    alloc: Global,
    vrps: &Vrps,
    prefix: Prefix,
    origin: Asn,
) -> Result<Explained, NoMemory>
    ensures state { IfOk result (λ e. e.state ≡ state_of vrps.now prefix origin) }
    ensures covering { IfOk result (λ e. e.covering ≡ covering_of vrps.now prefix) }
{
    let covering = vrps.covering(alloc, prefix)?;
    Ok(Explained {
        state: state(vrps, prefix, origin),
        covering,
    })
}
