//! Which table of all rounds.

use net_names::Prefix;

/// A prefix in a round, whose table is meant.
#[derive(Drop)]
pub struct RoundPrefix {
    pub round: u32,
    pub prefix: Prefix,
    /// The place of the prefix in the plan of seeds.
    pub place: usize,
}
