//! The state of the origins of a prefix's seeds.

ghost use Rattle.std.specs.Prelude.{◌≡◌, ◌⊎◌, Option, None, false, option_map};
ghost use Rattle.net_names.specs.Prelude.{last_or};
ghost use Rattle.policy_laws.specs.Prelude.{IsOf};
ghost use Rattle.stability_laws.specs.declared.entry.Seed.{Seed};
ghost use Rattle.route_choice.specs.Prelude.{AreSeedsLive, seeds_of};
ghost use Rattle.three_pass.specs.Origins.{AreSeedsOf};

use net_names::{Asn, Prefix, State};
use path_pool::PathPool;
use policy_laws::OriginStates;
use route_choice::SeedIds;

// The state of the origin of an AS's seed, if it has one.
fn seed_state<V: OriginStates>(
    states: &V,
    prefix: Prefix,
    seeds: &SeedIds,
    asn: Asn,
    pool: &PathPool,
) -> Option<State>
    requires { AreSeedsLive pool.now seeds.now }
    ensures { result ≡ option_map (λ (s : Seed). V.state_of states.now prefix (last_or 0 s.path))
        (seeds_of pool.now seeds.now asn) }
{
    match seeds.get(asn) {
        Some(seed) => Some(states.state(prefix, pool.last(seed.path))),
        None => None,
    }
}

// Whether a state is given, and not this one.
fn differs(all: Option<State>, state: Option<State>) -> bool
    ensures { result ≡ false → (all ≡ None) ⊎ (all ≡ state) }
{
    match (all, state) {
        (None, _) => false,
        (Some(_), None) => true,
        (Some(old), Some(new)) => old != new,
    }
}

/// The state that the origins of all seeds have, if it is one.
pub(crate) fn state_of_all<V: OriginStates>(
    states: &V,
    prefix: Prefix,
    seeds: &SeedIds,
    pool: &PathPool,
) -> Option<State>
    requires { AreSeedsLive pool.now seeds.now }
    ensures { AreSeedsOf (IsOf result) (V.state_of states.now prefix) (seeds_of pool.now seeds.now) }
{
    let mut all = None;
    let ases = seeds.ases();
    for asn in ases {
        let state = seed_state(states, prefix, seeds, *asn, pool);
        if differs(all, state) {
            return None;
        }
        all = state;
    }
    all
}
