//! The third pass: nothing is named twice.
ghost use Rattle.std.specs.Prelude.{◌≡◌, IfOk, map};
ghost use Rattle.std.specs.Ordering.{nat_cmp};
ghost use Rattle.net_names.specs.Prelude.{addr_cmp, announcement_cmp};
ghost use Rattle.scenario_text.specs.declared.places.Member.TheVariants.{Leaks};
ghost use Rattle.scenario_text.specs.Faults.{Gives, GivesBy};
ghost use Rattle.scenario_text.specs.Places.{in_member, item};
ghost use Rattle.scenario_text.specs.Scenarios.{announcement_name};
ghost use Rattle.scenario_text.specs.Twice.{once_in, once};
ghost use Rattle.scenario_text.specs.Walks.{each_from};

use crate::faults::ScenarioError;
use crate::lists::{Leakers, Lists};
use crate::places::{Member, Place};
use crate::scenario::Announcement;
use crate::walks::{Reading, each};
use net_names::{Addr, Asn, Prefix};
use policy_kinds::Kind;
use std::alloc::{AllocError, Global};
use std::collections::BTreeSet;

// Tests that no item of the list at the place stands earlier too.
fn items_once<K: Ord + Copy>(alloc: Global, place: Place, keys: &[K]) -> Result<(), ScenarioError>
where
    K: Drop,
    ensures { Gives result (once_in K.cmp place keys.now) }
{
    let mut seen: BTreeSet<K> = BTreeSet::new(alloc);
    for (i, key) in keys.iter().enumerate() {
        let added = seen.insert(*key)?;
        if !added {
            return Err(ScenarioError::Twice {
                place: place.item(i),
            });
        }
    }
    Ok(())
}

// Tests that no prefix and AS stand twice among these.
fn names_once(alloc: Global, place: Place, keys: &[(Prefix, Asn)]) -> Result<(), ScenarioError>
    ensures { Gives result (once_in announcement_cmp place keys.now) }
{
    items_once(alloc, place, keys)
}

// Tests that no AS stands twice among these.
fn numbers_once(alloc: Global, place: Place, keys: &[Asn]) -> Result<(), ScenarioError>
    ensures { Gives result (once_in nat_cmp place keys.now) }
{
    items_once(alloc, place, keys)
}

// Tests that no address stands twice among these.
fn addresses_once(alloc: Global, place: Place, keys: &[Addr]) -> Result<(), ScenarioError>
    ensures { Gives result (once_in addr_cmp place keys.now) }
{
    items_once(alloc, place, keys)
}

// The prefix and the AS of each announcement.
fn names(alloc: Global, announcements: &[Announcement]) -> Result<Vec<(Prefix, Asn)>, AllocError>
    ensures { IfOk result (λ v. v.items ≡ map announcement_name announcements.now) }
{
    announcements
        .iter()
        .map(|a| (a.prefix, a.asn))
        .collect(alloc)
}

// The AS of each policy.
fn ruled(alloc: Global, policies: &[(Asn, Kind)]) -> Result<Vec<Asn>, AllocError>
    ensures { IfOk result (λ v. v.items ≡ map (λ p. p.0) policies.now) }
{
    policies.iter().map(|p| p.0).collect(alloc)
}

// Tests that no AS announces a prefix twice.
fn announcements_once(
    alloc: Global,
    place: Place,
    announcements: &[Announcement],
) -> Result<(), ScenarioError>
    ensures { Gives result (once_in announcement_cmp place (map announcement_name announcements.now)) }
{
    let names = names(alloc, announcements)?;
    names_once(alloc, place, &names)
}

// Tests that no AS has two policies.
fn policies_once(alloc: Global, place: Place, policies: &[(Asn, Kind)]) -> Result<(), ScenarioError>
    ensures { Gives result (once_in nat_cmp place (map (λ p. p.0) policies.now)) }
{
    let numbers = ruled(alloc, policies)?;
    numbers_once(alloc, place, &numbers)
}

struct LeakersOnce;

impl Reading for LeakersOnce {
    type From = Leakers;

    type To = ();

    ghost gives = { once_in nat_cmp };

    fn read(alloc: Global, place: Place, from: &Leakers) -> Result<(), ScenarioError> {
        numbers_once(alloc, place, from.as_slice())
    }
}

// Tests that in no round an AS leaks twice.
fn leaks_once(alloc: Global, leaks: &[Leakers]) -> Result<Vec<()>, ScenarioError>
    ensures { GivesBy (λ v. v.items) result (each_from (λ i. once_in nat_cmp (item (in_member Leaks) i)) 0 leaks.now) }
{
    each::<LeakersOnce>(alloc, Place::member(Member::Leaks), leaks)
}

/// Tests that no announcement, policy, leaker of a round or watched address is named twice.
pub(crate) fn test_once(alloc: Global, lists: &Lists) -> Result<(), ScenarioError>
    ensures { GivesBy (λ _. lists.now) result (once lists.now) }
{
    announcements_once(
        alloc,
        Place::member(Member::Announcements),
        &lists.announcements,
    )?;
    policies_once(alloc, Place::member(Member::Policies), &lists.policies)?;
    leaks_once(alloc, &lists.leaks)?;
    addresses_once(alloc, Place::member(Member::Watch), &lists.watch)
}
