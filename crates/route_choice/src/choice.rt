//! What an AS chooses, and among which offers.

use crate::Held;
use net_names::{Asn, Rel};

/// Which offers a step looks at.
#[derive(Clone, Copy, Debug, PartialEq, Eq)]
pub enum Part {
    /// Those of customers.
    Up,
    /// All.
    Whole,
}

/// What an AS chooses.
#[derive(Clone, Copy, Debug, PartialEq, Eq)]
pub enum Choice {
    /// It has no seed, and there is no offer.
    Nothing,
    /// It has a seed.
    Seed,
    /// It has no seed, and this neighbour, which is `rel` to it, makes the best offer.
    Via {
        /// Who makes the offer.
        neighbour: Asn,
        /// What the neighbour is to the AS.
        rel: Rel,
    },
}

/// A choice, and where the AS whose offer it names was last found. The place is a hint.
#[derive(Clone, Copy)]
pub struct ChoiceNear {
    /// The choice.
    pub choice: Choice,
    /// The place.
    pub place: usize,
}

/// A choice, and what the AS whose offer it names holds.
#[derive(Clone, Copy)]
pub(crate) struct Chosen {
    pub(crate) near: ChoiceNear,
    pub(crate) given: Option<Held>,
}
