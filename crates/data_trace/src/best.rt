//! The best entry of an AS, and the next hop by it.
ghost use Rattle.std.specs.Prelude.{◌≡◌, false, slice_get, IfSome};
ghost use Rattle.net_names.specs.Prelude.{PrefixValue};
ghost use Rattle.path_pool.specs.Pool.{IsLive, list_of};

use crate::Hop;
use net_names::{Asn, Prefix};
use path_pool::{PathId, PathPool, paths_are_not_empty};
use route_choice::Held;
use stability_laws::SeedPlan;

/// The longest prefix so far of which an AS has an entry, and that entry.
#[derive(Clone, Copy)]
pub struct Best {
    pub prefix: Prefix,
    pub held: Held,
}

impl Best {
    ghost use Rattle.data_trace.specs.Best.{better_of};

    /// The better of the best so far and what is held of a further prefix.
    pub fn better(best: Option<Best>, prefix: Prefix, held: Option<Held>) -> Option<Best>
        ensures { result ≡ better_of best prefix held }
    {
        let Some(held) = held else {
            return best;
        };
        match best {
            Some(b) => {
                if b.prefix.len() < prefix.len() {
                    Some(Best { prefix, held })
                } else {
                    Some(b)
                }
            }
            None => Some(Best { prefix, held }),
        }
    }
}

impl Best {
    ghost use Rattle.data_trace.specs.Best.{hop_of};

    /// Where an AS sends a packet by its best entry. Only where it announces no prefix, `may_announce`
    /// may be false, and then the plan is not searched.
    pub fn hop(
        pool: &PathPool,
        plan: &SeedPlan,
        asn: Asn,
        may_announce: bool,
        best: Option<Best>,
    ) -> Hop
        requires live { IfSome best (λ b. IsLive pool.now b.held.path.0) }
        requires may { may_announce ≡ false → (p : PrefixValue) → announces plan.now p asn ≡ false }
        ensures { result ≡ hop_of pool.now plan.now asn best }
    {
        let Some(b) = best else {
            return Hop::NoRoute;
        };
        if is_announced(plan, b.prefix, asn, may_announce) {
            return Hop::Here;
        }
        second(pool, b.held.path)
    }
}

ghost use Rattle.stability_laws.specs.Prelude.{announces};
ghost use Rattle.std.specs.Option.{option_map_or};

// Whether the AS announces the prefix. The plan is not searched where it announces none.
fn is_announced(plan: &SeedPlan, prefix: Prefix, asn: Asn, may_announce: bool) -> bool
    requires { may_announce ≡ false → (p : PrefixValue) → announces plan.now p asn ≡ false }
    ensures { result ≡ announces plan.now prefix asn }
{
    if !may_announce {
        return false;
    }
    plan.announces(prefix, asn)
}

// To the second AS of a path, if there is one.
fn second(pool: &PathPool, path: PathId) -> Hop
    requires { IsLive pool.now path.0 }
    ensures { result ≡ option_map_or Hop.To (slice_get (list_of pool.now path.0) 1) Hop.NoRoute }
{
    match pool.tail(path) {
        Some(rest) => {
            paths_are_not_empty(pool);
            Hop::To(pool.head(rest))
        }
        None => Hop::NoRoute,
    }
}
