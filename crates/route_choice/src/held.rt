//! Entries and seeds whose paths stand in a pool.

use net_names::{Asn, Class};
use path_pool::PathId;

/// What an AS holds of a prefix: an entry whose path stands in a pool.
#[derive(Clone, Copy, Debug, PartialEq, Eq)]
pub struct Held {
    /// Who gave it.
    pub class: Class,
    /// The path in the pool.
    pub path: PathId,
    /// The number of the attribute Only to Customer (RFC 9234, section 5), if there is one.
    pub otc: Option<Asn>,
}

/// What an AS announces of a prefix by itself: a seed whose path stands in a pool.
#[derive(Clone, Copy, Debug, PartialEq, Eq)]
pub struct SeedHeld {
    /// The path in the pool.
    pub path: PathId,
    /// The number of the attribute Only to Customer (RFC 9234, section 5), if there is one.
    pub otc: Option<Asn>,
}
