//! The seeds of a round.
ghost use Rattle.std.specs.Prelude.{◌≡◌, ◌≢◌, ◌≤◌, ℕ, true, None, Some, length, OnOk, IfOk};
ghost use Rattle.std.specs.FinMap as map;
ghost use Rattle.stability_laws.specs.Plans.{leaks_in};
ghost use Rattle.stability_laws.specs.Rounds.{seeds_of};
ghost use Rattle.policy_laws.specs.Prelude.{is_own_or_customers};
ghost use Rattle.stability_laws.specs.Seeding.{announced_seed, own_or_leaked};

use crate::entry::Seed;
use crate::routing::{Routing, Seeds};
use crate::seed_plan::SeedPlan;
use net_names::{Asn, Class, MOST_IN_PATH, NoMemory, Prefix};
use std::alloc::Global;

// Puts the seed in, and nothing else.
fn put_seed(asn: Asn, seed: Seed, seeds: &mut Seeds) -> Result<(), NoMemory>
    requires { length seed.path ≤ MOST_IN_PATH }
    ensures this { OnOk result (map.get seeds.new asn ≡ Some seed) }
    ensures others { OnOk result ((a : ℕ) → a ≢ asn → map.get seeds.new a ≡ map.get seeds.old a) }
{
    seeds.put(asn, seed)
}

// Puts in what the AS announces of the prefix, where it announces it.
fn announce(
    alloc: Global,
    plan: &SeedPlan,
    prefix: Prefix,
    asn: Asn,
    seeds: &mut Seeds,
) -> Result<(), NoMemory>
    requires { map.get seeds.old asn ≡ None }
    ensures this { OnOk result (map.get seeds.new asn ≡ announced_seed plan.now prefix asn) }
    ensures others { OnOk result ((a : ℕ) → a ≢ asn → map.get seeds.new a ≡ map.get seeds.old a) }
{
    let Some(announced) = plan.path(prefix, asn) else {
        return Ok(());
    };
    let path = announced.copied(alloc)?;
    put_seed(asn, Seed { path, otc: None }, seeds)
}

// The seeds of those who announce the prefix.
fn announce_all(alloc: Global, plan: &SeedPlan, prefix: Prefix) -> Result<Seeds, NoMemory>
    ensures { IfOk result (λ s. (a : ℕ) → map.get s a ≡ announced_seed plan.now prefix a) }
{
    let mut seeds = Seeds::new(alloc);
    'announcers: for asn in plan.announcers() {
        announce(alloc, plan, prefix, *asn, &mut seeds)?;
    }
    Ok(seeds)
}

// Whether no peer and no provider gave an entry of this class.
fn is_own_or_given_by_customer(class: Class) -> bool
    ensures { result ≡ is_own_or_customers class }
{
    match class {
        Class::Origin | Class::Customer => true,
        Class::Peer | Class::Provider => false,
    }
}

// Puts in what a leaker leaks of what it held in the round before, unless it has a seed.
fn leak(alloc: Global, asn: Asn, before: &Routing, seeds: &mut Seeds) -> Result<(), NoMemory>
    ensures this { OnOk result (map.get seeds.new asn ≡
        own_or_leaked (map.get seeds.old asn) true (map.get before.now asn)) }
    ensures others { OnOk result ((a : ℕ) → a ≢ asn → map.get seeds.new a ≡ map.get seeds.old a) }
{
    if let Some(_) = seeds.get(asn) {
        return Ok(());
    }
    let Some(held) = before.get(asn) else {
        return Ok(());
    };
    if is_own_or_given_by_customer(held.class) {
        return Ok(());
    }
    let path = held.path.copied(alloc)?;
    let otc = held.otc;
    put_seed(asn, Seed { path, otc }, seeds)
}

// Puts in what the leakers of the round leak, unless they have seeds.
fn leak_all(
    alloc: Global,
    plan: &SeedPlan,
    round: u32,
    before: &Routing,
    seeds: &mut Seeds,
) -> Result<(), NoMemory>
    ensures { OnOk result ((a : ℕ) → map.get seeds.new a ≡
        own_or_leaked (map.get seeds.old a) (leaks_in plan.now round a) (map.get before.now a)) }
{
    'leakers: for asn in plan.leakers(round) {
        leak(alloc, *asn, before, seeds)?;
    }
    Ok(())
}

/// The seeds of a round and a prefix, given the routing of the round before, in which leakers look up
/// what they leak. `Err` where there is not enough memory.
/// Source: RFC 7908, section 3.
pub fn seeds_at(
    alloc: Global,
    plan: &SeedPlan,
    round: u32,
    prefix: Prefix,
    before: &Routing,
) -> Result<Seeds, NoMemory>
    ensures { IfOk result (λ s. (a : ℕ) → map.get s a ≡ seeds_of plan.now round prefix (map.get before.now) a) }
{
    let mut seeds = announce_all(alloc, plan, prefix)?;
    if round > 1 {
        leak_all(alloc, plan, round, before, &mut seeds)?;
    }
    Ok(seeds)
}
