//! The scenario and the payloads of a generated input.
ghost use Rattle.topo_gen.specs.declared.demo.TheConstants.{MOST_DRAWN};
ghost use Rattle.std.specs.Prelude.{◌≡◌, ◌<◌, ◌≤◌, ◌+◌, ◌∷◌, [], IfOk, OnOk, map, min};
ghost use Rattle.topo_gen.specs.Scenarios.{block, drawn_payloads, drawn_scenario, host, kind_of as kind_by, leakers_to};
ghost use Rattle.std.specs.List.{range_with_len};
ghost use Rattle.scenario_text.specs.Prelude.{nothing};

use crate::links::as_of;
use net_names::{Addr, Asn, Family, NoMemory, Path, Prefix, Vrp};
use policy_kinds::Kind;
use roa_table::{AddError, Vrps};
use scenario_text::{Announcement, Scenario};
use std::alloc::Global;

// 10.0.0.0/8.
fn whole() -> Prefix
    ensures { result ≡ block 8 }
{
    let Some(prefix) = Prefix::new(Family::V4, 167_772_160, 8) else {
        unreachable!();
    };
    prefix
}

// 10.0.0.0/9.
fn half() -> Prefix
    ensures { result ≡ block 9 }
{
    let Some(prefix) = Prefix::new(Family::V4, 167_772_160, 9) else {
        unreachable!();
    };
    prefix
}

/// 10.0.0.1.
pub fn low_addr() -> Addr
    ensures { result ≡ host 0 }
{
    let Some(addr) = Addr::new(Family::V4, 167_772_161) else {
        unreachable!();
    };
    addr
}

/// 10.128.0.1.
pub fn high_addr() -> Addr
    ensures { result ≡ host 1 }
{
    let Some(addr) = Addr::new(Family::V4, 176_160_769) else {
        unreachable!();
    };
    addr
}

// The announcement of a prefix by an AS with its own number as the path.
fn own_announcement(alloc: Global, prefix: Prefix, asn: Asn) -> Result<Announcement, NoMemory>
    ensures { IfOk result (λ a. a ≡ record { prefix = prefix; asn = asn; path = asn ∷ [] }) }
{
    let mut path = Path::new(alloc);
    path.push(asn)?;
    Ok(Announcement { prefix, asn, path })
}

// Makes the two announcements.
fn announce(alloc: Global, scenario: &mut Scenario, n: u32) -> Result<(), NoMemory>
    requires empty { scenario.old ≡ nothing }
    requires least { 1 ≤ n }
    ensures { OnOk result (scenario.new ≡ record nothing { announcements = (drawn_scenario n).announcements }) }
{
    let first = own_announcement(alloc, whole(), as_of(n))?;
    let second = own_announcement(alloc, half(), as_of(1 + n / 2))?;
    scenario.announce(first)?;
    scenario.announce(second)
}

// The policy of an AS by its number.
fn kind_of(number: u32) -> Kind
    ensures { result ≡ kind_by number }
{
    if number % 3 == 0 {
        Kind::DropInvalid
    } else if number % 5 == 0 {
        Kind::PreferValid
    } else if number % 7 == 0 {
        Kind::ProviderFirst
    } else {
        Kind::Plain
    }
}

// Gives each AS up to `n` its policy.
fn set_policies(scenario: &mut Scenario, n: u32) -> Result<(), NoMemory>
    requires few { n ≤ MOST_DRAWN }
    requires none { scenario.old.policies ≡ [] }
    ensures { OnOk result
        (scenario.new ≡ record scenario.old { policies = map (λ a. (a, kind_by a)) (range_with_len 1 n) }) }
{
    'ases: for k in 0..n {
        scenario.set_policy(as_of(k + 1), kind_of(k + 1))?;
    }
    Ok(())
}

// Makes the AS of the number after `k` leak in round 2, if it is one that does.
fn leak(scenario: &mut Scenario, k: u32) -> Result<(), NoMemory>
    requires few { k < 5000 }
    requires leaks { scenario.old.leaks ≡ leakers_to k ∷ [] }
    ensures { OnOk result (scenario.new ≡ record scenario.old { leaks = leakers_to (k + 1) ∷ [] }) }
{
    let number = k + 1;
    if number % 100 != 50 {
        return Ok(());
    }
    scenario.leaker(as_of(number))
}

// Makes those of the ASes up to `n` leak in round 2 that do.
fn leak_all(scenario: &mut Scenario, n: u32) -> Result<(), NoMemory>
    requires few { n ≤ 5000 }
    requires none { scenario.old.leaks ≡ [] }
    ensures { OnOk result (scenario.new ≡ record scenario.old { leaks = leakers_to n ∷ [] }) }
{
    scenario.new_round()?;
    'ases: for k in 0..n {
        leak(scenario, k)?;
    }
    Ok(())
}

// Watches the two addresses.
fn watch(scenario: &mut Scenario) -> Result<(), NoMemory>
    requires { scenario.old.watch ≡ [] }
    ensures { OnOk result (scenario.new ≡ record scenario.old { watch = host 0 ∷ host 1 ∷ [] }) }
{
    scenario.watch(low_addr())?;
    scenario.watch(high_addr())
}

/// The scenario of a generated input of so many ASes.
pub fn generate_scenario(alloc: Global, n: u32) -> Result<Scenario, NoMemory>
    requires least { 1 ≤ n }
    requires most { n ≤ MOST_DRAWN }
    ensures { IfOk result (λ s. s ≡ drawn_scenario n) }
{
    let mut scenario = Scenario::new(alloc);
    announce(alloc, &mut scenario, n)?;
    set_policies(&mut scenario, n)?;
    leak_all(&mut scenario, n.min(5000))?;
    watch(&mut scenario)?;
    Ok(scenario)
}

/// The payloads of a generated input of so many ASes.
pub fn generate_payloads(alloc: Global, n: u32) -> Result<Vrps, NoMemory>
    ensures { IfOk result (λ v. v ≡ drawn_payloads n) }
{
    let Some(vrp) = Vrp::new(whole(), 8, n) else {
        unreachable!();
    };
    let mut vrps = Vrps::new(alloc);
    match vrps.add(vrp) {
        Ok(_) => Ok(vrps),
        Err(AddError::Memory) => Err(NoMemory),
        Err(AddError::TooMany) => unreachable!(),
    }
}
