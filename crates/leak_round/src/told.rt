//! What is told of changes of rounds.

ghost use Rattle.std.specs.Prelude.{◌≡◌, ◌≢◌, ◌⊎◌, ℕ, ◌+◌, ◌<◌, ◌≤◌, ◌++◌, Some, IsTrue, IfOk, OnOk, slice_get};
ghost use Rattle.std.specs.Option.{option_to_list};
ghost use Rattle.std.specs.Ordering.{nat_cmp};
ghost use Rattle.net_names.specs.Prelude.{occurs};
ghost use Rattle.stability_laws.specs.Prelude.{ListsRising};
ghost use Rattle.route_choice.specs.Prelude.{places_of};
ghost use Rattle.leak_round.specs.declared.changes.Change.{Change as AChange};
ghost use Rattle.leak_round.specs.Told.{changes_at, IsToldOf};
ghost use Rattle.leak_round.specs.Overlays.{changes_count, IsListed};
ghost use Rattle.leak_round.specs.Plans.{count_told, ases_told};

use crate::changes::Change;
use crate::plans::RoundsDone;
use net_names::{Asn, NoMemory};
use route_choice::Overlay;
use std::alloc::Global;

// How many ASes have a change, in all tables.
fn count_all(changes: &[Change]) -> Result<u64, NoMemory>
    ensures { IfOk result (λ n. n ≡ changes_count changes.now) }
{
    let mut count: u64 = 0;
    for change in changes {
        // No memory has room for so many changes.
        let more = count.checked_add(change.overlay.len() as u64);
        count = more.ok_or(NoMemory)?;
    }
    Ok(count)
}

// Puts the ASes that have a change behind the others.
fn push_changed(overlay: &Overlay, ases: &mut Vec<Asn>) -> Result<(), NoMemory>
    ensures { OnOk result (ases.new.items ≡ ases.old.items ++ places_of overlay.now) }
{
    // `len` is called for its clause: it is how many ASes have a change, and no place is higher.
    let _count = overlay.len();
    let mut place = 0;
    'places: while let Some(asn) = overlay.at(place) {
        ases.push(asn)?;
        place += 1;
    }
    Ok(())
}

// The ASes that have a change of the round, perhaps with repeats.
fn changed_in(alloc: Global, changes: &[Change], round: usize) -> Result<Vec<Asn>, NoMemory>
    ensures { IfOk result (λ v. (a : ℕ) → occurs a v.items ≡ changes_at changes.now round a) }
{
    let mut ases = Vec::new(alloc);
    for change in changes {
        if change.round as usize == round {
            push_changed(&change.overlay, &mut ases)?;
        }
    }
    Ok(ases)
}

// Puts the AS whose announcement is edited behind the others, if there is one.
fn push_edited(edited: &Option<Asn>, ases: &mut Vec<Asn>) -> Result<(), NoMemory>
    ensures { OnOk result (ases.new.items ≡ ases.old.items ++ option_to_list edited.now) }
{
    let Some(asn) = edited else {
        return Ok(());
    };
    ases.push(*asn)?;
    Ok(())
}

// Puts the ASes in rising order, each once.
fn put_in_order(ases: &mut Vec<Asn>)
    ensures { ListsRising nat_cmp (λ a. IsTrue (occurs a ases.old.items)) ases.new.items }
{
    ases.sort_unstable();
    ases.dedup();
}

// The ASes that have a change of the round and the AS whose announcement is edited, in rising order and
// each once.
fn told_in(
    alloc: Global,
    changes: &[Change],
    round: usize,
    edited: &Option<Asn>,
) -> Result<Vec<Asn>, NoMemory>
    requires listed { (i : ℕ) (x : AChange) → slice_get changes.now i ≡ Some x → IsListed x.overlay }
    requires apart { (i j : ℕ) (x y : AChange) → i < j → slice_get changes.now i ≡ Some x →
        slice_get changes.now j ≡ Some y → (x.round ≢ y.round) ⊎ (x.prefix ≢ y.prefix) }
    ensures { IfOk result (λ v. ListsRising nat_cmp (IsToldOf changes.now edited.now round) v.items) }
{
    let mut ases = changed_in(alloc, changes, round)?;
    push_edited(edited, &mut ases)?;
    put_in_order(&mut ases);
    Ok(ases)
}

// What is told of changes, of which no two are of the same table: how many ASes have one, and round by
// round which, with the AS whose announcement is edited.
pub fn listed(
    alloc: Global,
    rounds: usize,
    changes: &[Change],
    edited: Option<Asn>,
) -> Result<RoundsDone, NoMemory>
    requires listed { (i : ℕ) (x : AChange) → slice_get changes.now i ≡ Some x → IsListed x.overlay }
    requires apart { (i j : ℕ) (x y : AChange) → i < j → slice_get changes.now i ≡ Some x →
        slice_get changes.now j ≡ Some y → (x.round ≢ y.round) ⊎ (x.prefix ≢ y.prefix) }
    ensures count { IfOk result (λ d. count_told d ≡ changes_count changes.now) }
    ensures told { IfOk result (λ d. (round : ℕ) → 1 ≤ round → round ≤ rounds →
        ListsRising nat_cmp (IsToldOf changes.now edited round) (ases_told d round)) }
{
    let count = count_all(changes)?;
    let mut changed = Vec::new(alloc);
    for before in 0..rounds {
        let ases = told_in(alloc, changes, before + 1, &edited)?;
        changed.push(ases)?;
    }
    Ok(RoundsDone {
        count,
        changed,
        none: Vec::new(alloc),
    })
}
