//! The part of a plan that one address and the rounds up to one depend on.
ghost use Rattle.std.specs.Prelude.{◌≡◌, ◌≤◌, ◌&&◌, ◌||◌, ◌==◌, ℕ, true, IfOk, OnOk};
ghost use Rattle.net_names.specs.Prelude.{holds as holds_of, AddrValue, PrefixValue};
ghost use Rattle.leak_round.specs.Prelude.{IsWithinLimits};
ghost use Rattle.leak_round.specs.declared.limits.TheConstants.{MOST_ROUNDS};
ghost use Rattle.stability_laws.specs.Prelude.{announced_path, leaks_in, empty_plan};
ghost use Rattle.trial_world.specs.Fixed.{IsGrown, IsPart, IsPlanFor};

use net_names::{Addr, Asn, NoMemory, Prefix, holds};
use stability_laws::{SeedPlan, plans_are_sound};
use std::alloc::Global;

// Announces what the AS announces of the prefix in the whole plan, if that is anything and isn't announced yet.
fn announce_at(
    alloc: Global,
    whole: &SeedPlan,
    prefix: Prefix,
    asn: Asn,
    part: &mut SeedPlan,
) -> Result<(), NoMemory>
    ensures grown { OnOk result (IsGrown whole.now prefix part.old part.new) }
    ensures there { OnOk result ((addr : AddrValue) → holds_of prefix addr ≡ true → IsPart addr whole.now part.old →
        announced_path part.new prefix asn ≡ announced_path whole.now prefix asn) }
    ensures leakers { part.new.leakers ≡ part.old.leakers }
{
    if part.announces(prefix, asn) {
        return Ok(());
    }
    match whole.path(prefix, asn) {
        Some(path) => {
            let copy = path.copied(alloc)?;
            part.announce(prefix, copy)
        }
        None => Ok(()),
    }
}

// Announces what the whole plan has of the prefix.
fn announce_prefix(
    alloc: Global,
    whole: &SeedPlan,
    prefix: Prefix,
    part: &mut SeedPlan,
) -> Result<(), NoMemory>
    ensures grown { OnOk result (IsGrown whole.now prefix part.old part.new) }
    ensures there { OnOk result ((addr : AddrValue) → holds_of prefix addr ≡ true → IsPart addr whole.now part.old →
        (a : ℕ) → announced_path part.new prefix a ≡ announced_path whole.now prefix a) }
    ensures leakers { part.new.leakers ≡ part.old.leakers }
{
    for asn in whole.announcers() {
        announce_at(alloc, whole, prefix, *asn, part)?;
    }
    Ok(())
}

// Announces what the whole plan has of the prefixes that hold the address.
fn announce_holding(
    alloc: Global,
    whole: &SeedPlan,
    addr: Addr,
    part: &mut SeedPlan,
) -> Result<(), NoMemory>
    requires { part.old ≡ empty_plan }
    ensures part { OnOk result (IsPart addr whole.now part.new) }
    ensures there { OnOk result ((p : PrefixValue) (a : ℕ) → holds_of p addr ≡ true →
        announced_path part.new p a ≡ announced_path whole.now p a) }
    ensures leakers { part.new.leakers ≡ part.old.leakers }
{
    plans_are_sound(whole);
    for prefix in whole.prefixes() {
        if holds(*prefix, addr) {
            announce_prefix(alloc, whole, *prefix, part)?;
        }
    }
    Ok(())
}

// Makes those leak in the round who leak in it in the whole plan.
fn leak_round(whole: &SeedPlan, round: u32, part: &mut SeedPlan) -> Result<(), NoMemory>
    requires { 2 ≤ round }
    ensures leaks { OnOk result ((r a : ℕ) →
        leaks_in part.new r a ≡ ((r == round && leaks_in whole.now r a) || leaks_in part.old r a)) }
    ensures announced { part.new.announced ≡ part.old.announced }
    ensures prefixes { part.new.prefixes ≡ part.old.prefixes }
{
    for asn in whole.leakers(round) {
        part.leaker(round, *asn)?;
    }
    Ok(())
}

// Makes those leak in the rounds from 2 to the last who leak in them in the whole plan.
fn leak_to(whole: &SeedPlan, last: u32, part: &mut SeedPlan) -> Result<(), NoMemory>
    requires few { last ≤ MOST_ROUNDS }
    ensures leaks { OnOk result ((r a : ℕ) → 2 ≤ r → r ≤ last →
        leaks_in part.new r a ≡ (leaks_in whole.now r a || leaks_in part.old r a)) }
    ensures announced { part.new.announced ≡ part.old.announced }
    ensures prefixes { part.new.prefixes ≡ part.old.prefixes }
{
    for round in 2..last + 1 {
        leak_round(whole, round, part)?;
    }
    Ok(())
}

/// The announcements of the prefixes of a plan that hold the address, and who leaks in the rounds up to the last.
pub fn part_for(
    alloc: Global,
    whole: &SeedPlan,
    addr: Addr,
    last: u32,
) -> Result<SeedPlan, NoMemory>
    requires small { IsWithinLimits whole.now }
    requires few { last ≤ MOST_ROUNDS }
    ensures part { IfOk result (IsPlanFor addr last whole.now) }
    ensures small { IfOk result IsWithinLimits }
{
    let mut part = SeedPlan::new(alloc);
    announce_holding(alloc, whole, addr, &mut part)?;
    leak_to(whole, last, &mut part)?;
    Ok(part)
}
