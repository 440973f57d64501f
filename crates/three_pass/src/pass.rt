//! What the steps of a pass read and gather.

use crate::course::Course;
use crate::looks::Looks;
use crate::told::Told;
use net_names::State;
use policy_laws::Stance;
use route_choice::{NamedSet, PrefixWorld};

/// What the passes of one prefix read: the world at the prefix, what they go along, and what is known of the seeds.
#[derive(Drop)]
pub struct Passing<'w, 'a, P, V> {
    /// The world at the prefix.
    pub at: PrefixWorld<'w, P, V>,
    /// The ASes in their order, and their providers.
    pub course: &'a Course,
    /// The state that the origins of all seeds have, if it is one.
    pub all: Option<State>,
    /// For each place of the order what the AS there does with providers' offers of such states.
    pub stances: &'a [Stance],
    /// The numbers on the paths of the seeds, each with the paths' origins, and the ASes that have these.
    pub named: NamedSet,
}

/// What steps gather.
#[derive(Drop)]
pub struct Gathered<'a> {
    /// Who told whom that it holds something, for the steps that follow.
    pub told: Told<'a>,
    /// The neighbours at which one step looks.
    pub looks: Looks,
}
