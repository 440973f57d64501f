//! Each place that has its rank notifies its providers: the loop of Kahn's algorithm, whose queue is the order itself.
ghost use Rattle.std.specs.Prelude.{◌≡◌, ℕ, ◌+◌, ◌-◌, ◌<◌, ◌^◌, [], ◌∷◌, ◌++◌, length, take, replicate, slice_index, slice_set, IfOk, OnOk};
ghost use Rattle.cycle_check.specs.Rows.{AreRows, count_of, row};
ghost use Rattle.cycle_check.specs.Stages.{times, freed, AreFree, IsStage};

use crate::row::row;
use net_names::NoMemory;
use std::alloc::Global;

// So many zeros.
pub fn zeros(alloc: Global, count: usize) -> Result<Vec<u32>, NoMemory>
    ensures { IfOk result (λ v. v.items ≡ replicate count 0) }
{
    Ok(Vec::from_elem(alloc, 0, count)?)
}

// Adds to the count of each place how often it stands in the items.
pub fn tally(items: &[u32], counts: &mut [u32])
    requires few { length items.now < 2 ^ 32 }
    requires within { (k : ℕ) → k < length items.now → slice_index items.now k < length counts.old }
    requires none { (p : ℕ) → slice_index counts.old p ≡ 0 }
    ensures { (p : ℕ) → p < length counts.old → slice_index counts.new p ≡ times p items.now }
{
    for place in items {
        counts[*place as usize] += 1;
    }
}

// Puts a place at the end of a list.
pub fn push(list: &mut Vec<u32>, place: u32) -> Result<(), NoMemory>
    ensures { OnOk result (list.new.items ≡ list.old.items ++ place ∷ []) }
{
    list.push(place)?;
    Ok(())
}

// The places with count 0, in rising order.
pub fn free(alloc: Global, counts: &[u32]) -> Result<Vec<u32>, NoMemory>
    requires few { length counts.now < 2 ^ 32 }
    ensures { IfOk result (λ v. AreFree counts.now v.items (length counts.now)) }
{
    let mut order = Vec::with_capacity(alloc, counts.len())?;
    for place in 0..counts.len() {
        if counts[place] == 0 {
            push(&mut order, place as u32)?;
        }
    }
    Ok(order)
}

// Notifies a provider of the rank that it has at least, and puts it into the order where no other
// customer of it waits.
fn notify(
    counts: &mut [u32],
    ranks: &mut [u32],
    order: &mut Vec<u32>,
    place: u32,
    rank: u32,
) -> Result<(), NoMemory>
    requires inside { place < length counts.old }
    requires ranked { place < length ranks.old }
    requires waits { 0 < slice_index counts.old place }
    ensures counts { counts.new ≡ slice_set counts.old place (slice_index counts.old place - 1) }
    ensures ranks { ranks.new ≡ slice_set ranks.old place rank }
    ensures order { OnOk result
        (order.new.items ≡ freed (slice_index counts.old place - 1) order.old.items place) }
{
    let at = place as usize;
    let left = counts[at] - 1;
    counts[at] = left;
    ranks[at] = rank;
    if left == 0 {
        push(order, place)?;
    }
    Ok(())
}

// Notifies the providers of the place at the head of the order.
fn notify_all(
    starts: &[u32],
    items: &[u32],
    counts: &mut [u32],
    ranks: &mut [u32],
    order: &mut Vec<u32>,
    head: usize,
) -> Result<(), NoMemory>
    requires rows { AreRows starts.now items.now }
    requires counts { length counts.old ≡ count_of starts.now }
    requires ranks { length ranks.old ≡ count_of starts.now }
    requires head { head < length order.old.items }
    requires stage { IsStage (row starts.now items.now) (count_of starts.now) counts.old ranks.old order.old.items
        (take head order.old.items) [] }
    ensures more { OnOk result (head < length order.new.items) }
    ensures stage { OnOk result (IsStage (row starts.now items.now) (count_of starts.now) counts.new ranks.new
        order.new.items (take (head + 1) order.new.items) []) }
{
    let place = order[head] as usize;
    let rank = ranks[place] + 1;
    for provider in row(starts, items, place) {
        notify(counts, ranks, order, *provider, rank)?;
    }
    Ok(())
}

// Gives ranks until no place is free that has not notified its providers.
pub fn give_ranks(
    starts: &[u32],
    items: &[u32],
    counts: &mut [u32],
    ranks: &mut [u32],
    order: &mut Vec<u32>,
) -> Result<(), NoMemory>
    requires rows { AreRows starts.now items.now }
    requires counts { length counts.old ≡ count_of starts.now }
    requires ranks { length ranks.old ≡ count_of starts.now }
    requires stage { IsStage (row starts.now items.now) (count_of starts.now) counts.old ranks.old
        order.old.items [] [] }
    ensures { OnOk result (IsStage (row starts.now items.now) (count_of starts.now) counts.new ranks.new
        order.new.items order.new.items []) }
{
    let mut head = 0;
    while head < order.len() {
        notify_all(starts, items, counts, ranks, order, head)?;
        head += 1;
    }
    Ok(())
}
