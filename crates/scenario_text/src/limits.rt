//! The last pass: no limit is passed.
ghost use Rattle.std.specs.Prelude.{◌≡◌, IfErr, IfOk, OnOk, false, length, map, nat_lt, true};
ghost use Rattle.std.specs.BTreeSet.{IsFromIterResult};
ghost use Rattle.std.specs.List.{list_any};
ghost use Rattle.scenario_text.specs.declared.faults.ScenarioError.TheVariants.{Limit};
ghost use Rattle.scenario_text.specs.Faults.{GivesBy};
ghost use Rattle.scenario_text.specs.Limits.{within};
ghost use Rattle.scenario_text.specs.Scenarios.{prefix_count};

use crate::faults::{LimitOf, ScenarioError};
use crate::lists::{Leakers, Lists};
use crate::scenario::Announcement;
use net_names::Prefix;
use std::alloc::{AllocError, Global};
use std::collections::BTreeSet;

/// How many announcements there are at most.
pub const MOST_ANNOUNCEMENTS: usize = 64;

/// How many different prefixes are announced at most.
pub const MOST_PREFIXES: usize = 32;

/// How many numbers an announced path has at most.
pub const MOST_NUMBERS: usize = 64;

/// How many lists of leakers there are at most: one for each round after the first, and there are four rounds at most.
pub const MOST_LEAK_LISTS: usize = 3;

/// How many ASes leak in a round at most.
pub const MOST_LEAKERS: usize = 64;

/// How many addresses are watched at most.
pub const MOST_WATCHED: usize = 16;

// The set of these keys.
fn set_of<K: Ord + Copy>(alloc: Global, keys: &[K]) -> Result<BTreeSet<K>, AllocError>
where
    K: Drop,
    ensures { IfOk result (λ set. IsFromIterResult K.cmp keys.now set) }
{
    keys.iter().copied().collect(alloc)
}

// The prefix of each announcement.
fn prefixes(alloc: Global, announcements: &[Announcement]) -> Result<Vec<Prefix>, AllocError>
    ensures { IfOk result (λ v. v.items ≡ map (λ a. a.prefix) announcements.now) }
{
    announcements.iter().map(|a| a.prefix).collect(alloc)
}

// How many different prefixes are announced.
fn count_prefixes(alloc: Global, announcements: &[Announcement]) -> Result<usize, AllocError>
    ensures { IfOk result (λ n. n ≡ prefix_count announcements.now) }
{
    let prefixes = prefixes(alloc, announcements)?;
    let different = set_of(alloc, &prefixes)?;
    Ok(different.len())
}

// Whether the path of an announcement has too many numbers.
fn has_long_path(announcements: &[Announcement]) -> bool
    ensures { result ≡ list_any (λ a. nat_lt MOST_NUMBERS (length a.path)) announcements.now }
{
    announcements
        .iter()
        .any(|a| a.path.as_slice().len() > MOST_NUMBERS)
}

// Whether too many ASes leak in a round.
fn has_many_leakers(leaks: &[Leakers]) -> bool
    ensures { result ≡ list_any (λ leakers. nat_lt MOST_LEAKERS (length leakers)) leaks.now }
{
    leaks.iter().any(|l| l.as_slice().len() > MOST_LEAKERS)
}

// Tests that this limit isn't passed.
fn test_limit(passed: bool, which: LimitOf) -> Result<(), ScenarioError>
    ensures ok { OnOk result (passed ≡ false) }
    ensures err { IfErr result (λ e. (e ≡ Limit which) × (passed ≡ true)) }
{
    if passed {
        Err(ScenarioError::Limit { which })
    } else {
        Ok(())
    }
}

/// Tests that no limit is passed.
#[tactic(auto, unfolding(crate::specs::Limits::within))]
pub(crate) fn test_limits(alloc: Global, lists: &Lists) -> Result<(), ScenarioError>
    ensures { GivesBy (λ _. lists.now) result (within lists.now) }
{
    test_limit(
        lists.announcements.len() > MOST_ANNOUNCEMENTS,
        LimitOf::Announcements,
    )?;
    let prefixes = count_prefixes(alloc, &lists.announcements)?;
    test_limit(prefixes > MOST_PREFIXES, LimitOf::Prefixes)?;
    test_limit(has_long_path(&lists.announcements), LimitOf::Path)?;
    test_limit(lists.leaks.len() > MOST_LEAK_LISTS, LimitOf::Rounds)?;
    test_limit(has_many_leakers(&lists.leaks), LimitOf::Leakers)?;
    test_limit(lists.watch.len() > MOST_WATCHED, LimitOf::Watch)
}
