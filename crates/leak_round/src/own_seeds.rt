//! The seeds that announcements make, kept prefix by prefix from one edit to the next.

ghost use Rattle.std.specs.Prelude.{◌≡◌, ◌≢◌, ℕ, Some, false, List, [], slice_get, IfSome};
ghost use Rattle.stability_laws.specs.Prelude.{leaks_in, prefixes_of};
ghost use Rattle.route_choice.specs.declared.round_tables.RoundTables.{RoundTables as SomeTables};
ghost use Rattle.leak_round.specs.declared.announced.Announced.{Announced as AnAnnouncement};
ghost use Rattle.leak_round.specs.declared.changes.Change.{Change as AChange};
ghost use Rattle.leak_round.specs.Edited.{announced_after, prefix_edited, seeds_after};
ghost use Rattle.leak_round.specs.Leaked.{AreSeedsWith};
ghost use Rattle.leak_round.specs.OwnSeeds.{AreOwn, AreOwnEdited, AreOwnSeeds, AreOthersKept};

use crate::announced::{Announced, announced_seeds};
use crate::edited::{EditedSeeds, plan_after};
use crate::round_prefix::RoundPrefix;
use net_names::{NoMemory, Prefix};
use route_choice::SeedIds;
use stability_laws::SeedPlan;
use std::alloc::Global;

// Adds the seeds of the prefixes that have none in the list yet.
pub fn fill_own_seeds(
    alloc: Global,
    plan: &SeedPlan,
    announced: &[Announced],
    own: &mut Vec<SeedIds>,
) -> Result<(), NoMemory>
    requires { AreOwnSeeds plan.now announced.now own.old.items }
    ensures { AreOwnSeeds plan.now announced.now own.new.items }
{
    'prefixes: while let Some(prefix) = plan.prefix_at(own.len()) {
        let seeds = announced_seeds(alloc, announced, prefix)?;
        own.push(seeds)?;
    }
    Ok(())
}

// The place of a prefix in a list, if it stands there.
fn place_of(prefixes: &[Prefix], prefix: Prefix) -> Option<usize>
    ensures { IfSome result (λ i. slice_get prefixes.now i ≡ Some prefix) }
{
    prefixes.iter().position(|one| *one == prefix)
}

// Puts other seeds of a prefix in place of those that are kept of it.
pub fn put_own_seeds(plan: &SeedPlan, prefix: Prefix, seeds: SeedIds, own: &mut Vec<SeedIds>)
    ensures { (xs ys : List AnAnnouncement) → AreOwnSeeds plan.now xs own.old.items →
        AreOthersKept (Some prefix) xs ys → AreOwn ys prefix seeds → AreOwnSeeds plan.now ys own.new.items }
{
    match place_of(plan.prefixes(), prefix) {
        Some(place) if place < own.len() => own[place] = seeds,
        _ => own.clear(),
    }
}

// Whether an AS leaks in a round.
fn has_leakers(plan: &SeedPlan, round: u32) -> bool
    ensures { result ≡ false → (a : ℕ) → leaks_in plan.now round a ≡ false }
{
    plan.leaker_at(round, 0).is_some()
}

// Whether this is the prefix of which an announcement is edited.
fn is_edited(edited: &Option<EditedSeeds>, prefix: Prefix) -> bool
    ensures { result ≡ false → prefix_edited edited.now ≢ Some prefix }
{
    match edited {
        Some(seeds) => seeds.prefix == prefix,
        None => false,
    }
}

// The seeds of a prefix in a round, if they are kept: no announcement of the prefix is
// edited, and nobody leaks in the round. Then they are the same before and after the edit.
pub fn unchanged_seeds<'a>(
    own: &'a [SeedIds],
    plan: &SeedPlan,
    edited: &Option<EditedSeeds>,
    at: &RoundPrefix,
) -> Option<&'a SeedIds>
    ensures { IfSome result (λ s. (xs ys : List AnAnnouncement) (rounds : List SomeTables) (changes : List AChange) →
        AreOwnSeeds plan.now xs own.now → slice_get (prefixes_of plan.now) at.now.place ≡ Some at.now.prefix →
        AreOthersKept (prefix_edited edited.now) xs ys →
        AreSeedsWith plan.now xs rounds [] at.now.round at.now.prefix s.now ×
        AreSeedsWith (seeds_after edited.now plan.now) ys rounds changes at.now.round at.now.prefix s.now) }
{
    let after = plan_after(edited, plan);
    if is_edited(edited, at.prefix) || has_leakers(plan, at.round) || has_leakers(after, at.round) {
        return None;
    }
    own.get(at.place)
}

// The seeds of a prefix in a round, before and after an edit of one of its announcements, if
// they are kept: nobody leaks in the round.
pub fn edited_seeds<'a>(
    own: &'a [SeedIds],
    plan: &SeedPlan,
    edited: &'a Option<EditedSeeds>,
    at: &RoundPrefix,
) -> Option<(&'a SeedIds, &'a SeedIds)>
    ensures { IfSome result (λ s. (xs : List AnAnnouncement) (rounds : List SomeTables) (changes : List AChange) →
        AreOwnSeeds plan.now xs own.now → slice_get (prefixes_of plan.now) at.now.place ≡ Some at.now.prefix →
        AreOwnEdited edited.now →
        AreSeedsWith plan.now xs rounds [] at.now.round at.now.prefix s.0.now ×
        AreSeedsWith (seeds_after edited.now plan.now) (announced_after edited.now xs) rounds changes
        at.now.round at.now.prefix s.1.now) }
{
    let Some(seeds) = edited else {
        return None;
    };
    if seeds.prefix != at.prefix
        || has_leakers(plan, at.round)
        || has_leakers(&seeds.plan, at.round)
    {
        return None;
    }
    match own.get(at.place) {
        Some(before) => Some((before, &seeds.own)),
        None => None,
    }
}
