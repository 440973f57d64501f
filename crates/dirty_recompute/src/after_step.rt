//! What stands after the step of an AS, lent.

ghost use Rattle.std.specs.Prelude.{◌≡◌, Some};
ghost use Rattle.path_pool.specs.Pool.{IsLive};
ghost use Rattle.route_choice.specs.declared.held.Held.{Held as AHeld};
ghost use Rattle.route_choice.specs.Prelude.{AreHeld, AreSeedsLive};

use crate::ranked_world::RankedWorld;
use net_names::Asn;
use path_pool::PathPool;
use route_choice::{Held, Overlay};

/// What the step of an AS came to.
#[derive(Clone, Copy)]
pub(crate) struct Stepped {
    /// Where its row stands in the graph. It is a hint.
    pub place: usize,
    /// What it held before.
    pub before: Option<Held>,
    /// It holds another entry than before.
    pub changed: bool,
    /// It has no seed, and nobody whom the step looks at makes it an offer.
    pub nothing: bool,
}

/// What stands after an AS has made a step. The entries are held, and the paths of the seeds and of what the AS
/// held before are live.
#[derive(Drop)]
pub(crate) struct AfterStep<'a, P, V> {
    /// The world, with the table as it was before the edit.
    pub world: &'a RankedWorld<'a, P, V>,
    /// The paths.
    pub pool: &'a PathPool,
    /// The changes of the table.
    pub overlay: &'a Overlay,
    /// The AS.
    pub asn: Asn,
    /// What its step came to.
    pub stepped: Stepped,
    ghost held: { AreHeld pool.now world.now.at.table.now overlay.now },
    ghost seeds_live: { AreSeedsLive pool.now world.now.at.seeds.now },
    ghost live: { (h : AHeld) → stepped.before ≡ Some h → IsLive pool.now h.path.0 },
}
