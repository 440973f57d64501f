//! A simulation.
ghost use Rattle.sim_core.specs.Views.{IsCounted};

use crate::parts::Parts;

/// A world, the ranks of its ASes, for each round and prefix the one and only stable routing, and for
/// each round and watched address the ends of all traces. Contracts see the world, the ranks, what each
/// AS holds, and the ends.
#[derive(Drop)]
pub struct Sim {
    pub(crate) parts: Parts,
    ghost counted: { IsCounted parts },
}
