//! Which step an AS makes, and where it stands.

use crate::Part;
use net_names::Asn;

/// An AS with a place.
#[derive(Clone, Copy)]
pub struct PlacedAs {
    /// The AS.
    pub asn: Asn,
    /// The place.
    pub place: usize,
}

/// Which step is made.
#[derive(Clone, Copy)]
pub struct Turn {
    /// The AS that makes it.
    pub asn: Asn,
    /// The place where the AS was last found, in the graph and in the table. It is a hint.
    pub place: usize,
    /// Whether a path may go through the AS. Where it is not set, none is walked in search of the AS.
    pub may_loop: bool,
    /// Which offers the step looks at.
    pub part: Part,
}
