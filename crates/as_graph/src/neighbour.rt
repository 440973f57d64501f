//! A neighbour of an AS.
use net_names::{Asn, Rel};

/// A neighbour of an AS, and what it is to that AS.
#[derive(Clone, Copy, Debug, PartialEq, Eq)]
pub struct Neighbour {
    /// The neighbour's number.
    pub asn: Asn,
    /// What the neighbour is: customer, peer or provider.
    pub rel: Rel,
}

/// What fills the unused places of a list of neighbours.
impl Default for Neighbour {
    fn default() -> Neighbour {
        let Some(asn) = Asn::new(1) else {
            unreachable!();
        };
        Neighbour {
            asn,
            rel: Rel::Customer,
        }
    }
}
