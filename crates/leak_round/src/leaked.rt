//! What leakers put in.

ghost use Rattle.std.specs.Prelude.{◌≡◌, ◌≢◌, ℕ, ◌-◌, ◌≤◌, true, OnOk};
ghost use Rattle.stability_laws.specs.Prelude.{leaks_in};
ghost use Rattle.route_choice.specs.Prelude.{seed_at};
ghost use Rattle.leak_round.specs.Leaked.{leaked_of, own_or_leaked};
ghost use Rattle.leak_round.specs.Overlays.{change_in, held_of, held_with};

use crate::changes::Change;
use net_names::{Asn, Class, NoMemory, Prefix};
use route_choice::{Held, RoundTables, SeedHeld, SeedIds};
use stability_laws::SeedPlan;

// The change at an AS for a prefix in a round, if there is one.
fn change_of(changes: &[Change], round: u32, prefix: Prefix, asn: Asn) -> Option<Option<Held>>
    ensures { result ≡ change_in changes.now round prefix asn }
{
    for change in changes {
        if change.round == round && change.prefix == prefix {
            return change.overlay.get(asn);
        }
    }
    None
}

// What an AS holds of a prefix in the tables of a round.
fn held_in_tables(tables: &[RoundTables], round: u32, prefix: Prefix, asn: Asn) -> Option<Held>
    ensures { result ≡ held_of tables.now round prefix asn }
{
    if round == 0 {
        return None;
    }
    let Some(round_tables) = tables.get(round as usize - 1) else {
        return None;
    };
    match round_tables.table(prefix) {
        Some(table) => table.get(asn),
        None => None,
    }
}

// What an AS holds of a prefix in a round with the changes in place.
fn held_after(
    tables: &[RoundTables],
    changes: &[Change],
    round: u32,
    prefix: Prefix,
    asn: Asn,
) -> Option<Held>
    ensures { result ≡ held_with tables.now changes.now round prefix asn }
{
    match change_of(changes, round, prefix, asn) {
        Some(held) => held,
        None => held_in_tables(tables, round, prefix, asn),
    }
}

// The seed that a leaker makes of what it holds: its path and number, where a peer or a provider gave
// it.
fn leaked(held: Held) -> Option<SeedHeld>
    ensures { result ≡ leaked_of held.class held }
{
    match held.class {
        Class::Origin | Class::Customer => None,
        Class::Peer | Class::Provider => Some(SeedHeld {
            path: held.path,
            otc: held.otc,
        }),
    }
}

// Puts in what a leaker leaks of a round, unless it has a seed.
fn leak(
    prefix: Prefix,
    asn: Asn,
    tables: &[RoundTables],
    changes: &[Change],
    before: u32,
    seeds: &mut SeedIds,
) -> Result<(), NoMemory>
    ensures this { OnOk result (seed_at seeds.new asn ≡
        own_or_leaked (seed_at seeds.old asn) true (held_with tables.now changes.now before prefix asn)) }
    ensures others { OnOk result ((a : ℕ) → a ≢ asn → seed_at seeds.new a ≡ seed_at seeds.old a) }
{
    if seeds.get(asn).is_some() {
        return Ok(());
    }
    let Some(held) = held_after(tables, changes, before, prefix, asn) else {
        return Ok(());
    };
    match leaked(held) {
        Some(seed) => seeds.put(asn, seed),
        None => Ok(()),
    }
}

// Puts in what the leakers of a round leak, unless they have seeds: what they hold in the round before
// with the changes in place.
pub fn leak_all(
    plan: &SeedPlan,
    prefix: Prefix,
    round: u32,
    tables: &[RoundTables],
    changes: &[Change],
    seeds: &mut SeedIds,
) -> Result<(), NoMemory>
    requires { 1 ≤ round }
    ensures { OnOk result ((a : ℕ) → seed_at seeds.new a ≡
        own_or_leaked (seed_at seeds.old a) (leaks_in plan.now round a)
        (held_with tables.now changes.now (round - 1) prefix a)) }
{
    let before = round - 1;
    let leakers = plan.leakers(round);
    'leakers: for asn in leakers {
        leak(prefix, *asn, tables, changes, before, seeds)?;
    }
    Ok(())
}
