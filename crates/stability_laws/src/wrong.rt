//! What may be wrong with a routing at an AS.

use net_names::Asn;

/// Why a routing is not right at an AS.
#[derive(Clone, Copy, Debug, PartialEq, Eq)]
pub enum Wrong {
    /// The AS has a seed and holds something else or nothing.
    SeedNotHeld,
    /// It has no seed and no offer, and holds an entry.
    Unexpected,
    /// It has no seed and holds nothing, and the neighbour `by` makes the best offer.
    Absent { by: Asn },
    /// It has no seed and holds an entry that is not the best offer, which the neighbour `by` makes.
    NotBest { by: Asn },
}
