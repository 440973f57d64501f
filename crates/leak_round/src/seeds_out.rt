//! Seeds with their paths copied out of the pool.

ghost use Rattle.std.specs.Prelude.{◌≡◌, ◌≢◌, ℕ, ◌≤◌, true, length, is_some, IfOk, OnOk};
ghost use Rattle.std.specs.FinMap as map;
ghost use Rattle.path_pool.specs.Pool.{IsLive, limit_of};
ghost use Rattle.route_choice.specs.Prelude.{AreSeedsLive, seed_of, seeds_of, seed_at};
ghost use Rattle.leak_round.specs.SeedPaths.{HaveAtMost};

use net_names::{Asn, NoMemory};
use path_pool::{PathPool, cells_are_within};
use route_choice::{SeedHeld, SeedIds};
use stability_laws::{Seed, Seeds};
use std::alloc::Global;

// The seed, with a copy of its path.
fn seed_out(alloc: Global, pool: &PathPool, held: SeedHeld) -> Result<Seed, NoMemory>
    requires { IsLive pool.now held.path.0 }
    ensures seed { IfOk result (λ s. s ≡ seed_of pool.now held) }
    ensures short { IfOk result (λ s. length s.path ≤ limit_of pool.now) }
{
    // `length` and `live` are called for their clauses: a path has no more numbers than there are live cells, and
    // there are no more of them than the limit.
    let (_numbers, _cells) = (pool.length(held.path), pool.live());
    let path = pool.copy_out(alloc, held.path)?;
    Ok(Seed {
        path,
        otc: held.otc,
    })
}

// Puts the seed of an AS among the others, where it has one.
fn put_out(
    alloc: Global,
    pool: &PathPool,
    ids: &SeedIds,
    asn: Asn,
    seeds: &mut Seeds,
) -> Result<(), NoMemory>
    requires live { AreSeedsLive pool.now ids.now }
    requires there { is_some (seed_at ids.now asn) ≡ true }
    requires short { HaveAtMost (limit_of pool.now) seeds.old }
    ensures this { OnOk result (map.get seeds.new asn ≡ seeds_of pool.now ids.now asn) }
    ensures others { OnOk result ((a : ℕ) → a ≢ asn → map.get seeds.new a ≡ map.get seeds.old a) }
    ensures short { OnOk result (HaveAtMost (limit_of pool.now) seeds.new) }
{
    let Some(held) = ids.get(asn) else {
        unreachable!();
    };
    cells_are_within(pool);
    let seed = seed_out(alloc, pool, held)?;
    seeds.put(asn, seed)?;
    Ok(())
}

// The seeds, with copies of their paths.
pub fn seeds_out(alloc: Global, pool: &PathPool, ids: &SeedIds) -> Result<Seeds, NoMemory>
    requires { AreSeedsLive pool.now ids.now }
    ensures seeds { IfOk result (λ s. (a : ℕ) → map.get s a ≡ seeds_of pool.now ids.now a) }
    ensures short { IfOk result (HaveAtMost (limit_of pool.now)) }
{
    let mut seeds = Seeds::new(alloc);
    let ases = ids.ases();
    for asn in ases {
        put_out(alloc, pool, ids, *asn, &mut seeds)?;
    }
    Ok(seeds)
}
