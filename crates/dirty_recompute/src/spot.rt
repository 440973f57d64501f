//! An AS in the order by rank.

use net_names::Asn;

/// An AS under its rank, and whether it waits.
#[derive(Clone, Copy)]
pub(crate) struct Spot {
    /// The AS.
    pub asn: Asn,
    /// Its rank.
    pub rank: u32,
    /// Where its row was last found in the graph. It is a hint.
    pub row: u32,
    /// It waits.
    pub waits: bool,
}
