//! The announced paths, as paths of a pool.

ghost use Rattle.std.specs.Prelude.{◌≡◌, ℕ, ◌+◌, ◌<◌, ◌≤◌, None, Some, [], length, slice_get, option_map, IsTrue, IfOk, OnOk};
ghost use Rattle.std.specs.List.{sum_by};
ghost use Rattle.std.specs.FinMap as fin;
ghost use Rattle.net_names.specs.Prelude.{PrefixValue};
ghost use Rattle.path_pool.specs.Pool.{IsLive, holds_of, count_of, live_count, limit_of};
ghost use Rattle.path_pool.specs.declared.pool.TheConstants.{MOST_COUNT};
ghost use Rattle.stability_laws.specs.Prelude.{has_prefix, prefixes_of, announcers_of};
ghost use Rattle.route_choice.specs.Prelude.{seed_at, GivesBack};
ghost use Rattle.leak_round.specs.Limits.{announced_length, announced_count, numbers_of};
ghost use Rattle.leak_round.specs.declared.announced.Announced.{Announced as AnAnnouncement};
ghost use Rattle.leak_round.specs.Growth.{KeepsPaths};
ghost use Rattle.leak_round.specs.Announced.{own_path, own_seed, announced_uses, AnnouncesMore, IsAnnouncing, HasAnnounced};

use crate::reserving::reserve_numbers;
use net_names::{Asn, NoMemory, Prefix};
use path_pool::{PathId, PathPool};
use route_choice::{SeedHeld, SeedIds};
use stability_laws::SeedPlan;
use std::alloc::Global;

/// An AS that announces a prefix, and where the announced path stands in a pool.
#[derive(Clone, Copy)]
pub struct Announced {
    pub prefix: Prefix,
    pub asn: Asn,
    pub path: PathId,
}

// Puts the path that an AS announces of a prefix into the pool, if it announces the prefix.
fn announce(
    plan: &SeedPlan,
    prefix: Prefix,
    asn: Asn,
    pool: &mut PathPool,
    announced: &mut Vec<Announced>,
) -> Result<(), NoMemory>
    requires so_far { IsAnnouncing pool.old plan.now announced.old.items }
    requires room { live_count pool.old + announced_length plan.now prefix asn ≤ limit_of pool.old }
    ensures more { OnOk result (AnnouncesMore pool.new plan.now announced.old.items announced.new.items) }
    ensures this { OnOk result (HasAnnounced plan.now announced.new.items prefix asn) }
    ensures few { OnOk result (length announced.new.items ≤
        length announced.old.items + announced_count plan.now prefix asn) }
    ensures cells { OnOk result (live_count pool.new ≤ live_count pool.old + announced_length plan.now prefix asn) }
    ensures limit { limit_of pool.new ≡ limit_of pool.old }
{
    let Some(path) = plan.path(prefix, asn) else {
        return Ok(());
    };
    let numbers = path.as_slice();
    reserve_numbers(pool, numbers.len())?;
    let path = pool.copy_in(numbers);
    announced.push(Announced { prefix, asn, path })?;
    Ok(())
}

// Puts the announced paths of a prefix into the pool.
fn announce_prefix(
    plan: &SeedPlan,
    prefix: Prefix,
    pool: &mut PathPool,
    announced: &mut Vec<Announced>,
) -> Result<(), NoMemory>
    requires so_far { IsAnnouncing pool.old plan.now announced.old.items }
    requires room { live_count pool.old + sum_by (announced_length plan.now prefix) (announcers_of plan.now) ≤
        limit_of pool.old }
    ensures more { OnOk result (AnnouncesMore pool.new plan.now announced.old.items announced.new.items) }
    ensures whole { OnOk result ((a : ℕ) → HasAnnounced plan.now announced.new.items prefix a) }
    ensures few { OnOk result (length announced.new.items ≤
        length announced.old.items + sum_by (announced_count plan.now prefix) (announcers_of plan.now)) }
    ensures cells { OnOk result (live_count pool.new ≤
        live_count pool.old + sum_by (announced_length plan.now prefix) (announcers_of plan.now)) }
    ensures limit { limit_of pool.new ≡ limit_of pool.old }
{
    'announcers: for asn in plan.announcers() {
        announce(plan, prefix, *asn, pool, announced)?;
    }
    Ok(())
}

// Puts all announced paths into the pool, each once and with one hold.
pub fn announce_all(
    alloc: Global,
    plan: &SeedPlan,
    pool: &mut PathPool,
) -> Result<Vec<Announced>, NoMemory>
    requires so_far { IsAnnouncing pool.old plan.now [] }
    requires room { live_count pool.old + numbers_of plan.now ≤ limit_of pool.old }
    ensures so_far { IfOk result (λ v. IsAnnouncing pool.new plan.now v.items) }
    ensures whole { IfOk result (λ v. (prefix : PrefixValue) (a : ℕ) → IsTrue (has_prefix plan.now prefix) →
        HasAnnounced plan.now v.items prefix a) }
    ensures few { IfOk result (λ v. length v.items ≤ fin.len plan.now.announced) }
    ensures cells { OnOk result (live_count pool.new ≤ live_count pool.old +
        sum_by (λ prefix. sum_by (announced_length plan.now prefix) (announcers_of plan.now)) (prefixes_of plan.now)) }
    ensures limit { limit_of pool.new ≡ limit_of pool.old }
{
    let mut announced = Vec::new(alloc);
    'prefixes: for prefix in plan.prefixes() {
        announce_prefix(plan, *prefix, pool, &mut announced)?;
    }
    Ok(announced)
}

// The seeds that the announcements of a prefix make.
pub fn announced_seeds(
    alloc: Global,
    announced: &[Announced],
    prefix: Prefix,
) -> Result<SeedIds, NoMemory>
    ensures { IfOk result (λ s. (a : ℕ) → seed_at s a ≡ option_map own_seed (own_path announced.now prefix a)) }
{
    let mut seeds = SeedIds::new(alloc);
    for one in announced {
        if one.prefix == prefix {
            let seed = SeedHeld {
                path: one.path,
                otc: None,
            };
            seeds.put(one.asn, seed)?;
        }
    }
    Ok(seeds)
}

// Takes one hold more of each announced path.
pub fn hold_all(announced: &[Announced], pool: &mut PathPool)
    requires live { (place : ℕ) (x : AnAnnouncement) → slice_get announced.now place ≡ Some x →
        IsLive pool.old x.path.0 }
    requires counts { (k : ℕ) → count_of pool.old k + length announced.now < MOST_COUNT }
    ensures holds { (k : ℕ) → holds_of pool.new k ≡ holds_of pool.old k + announced_uses announced.now k }
    ensures keeps { KeepsPaths pool.old pool.new }
    ensures counts { (k : ℕ) → count_of pool.new k ≤ count_of pool.old k + length announced.now }
    ensures cells { live_count pool.new ≡ live_count pool.old }
    ensures limit { limit_of pool.new ≡ limit_of pool.old }
{
    for one in announced {
        pool.hold(one.path);
    }
}

// Gives back one hold of each announced path.
pub fn release_all(announced: &[Announced], pool: &mut PathPool)
    requires { (k : ℕ) → announced_uses announced.now k ≤ holds_of pool.old k }
    ensures holds { (k : ℕ) → holds_of pool.new k + announced_uses announced.now k ≡ holds_of pool.old k }
    ensures back { GivesBack pool.old pool.new }
{
    for one in announced {
        let _freed = pool.release(one.path);
    }
}
