//! The way down through the places without a rank.
ghost use Rattle.std.specs.Prelude.{◌≡◌, ℕ, ◌<◌, ◌≤◌, ◌^◌, length, slice_index, IfOk};
ghost use Rattle.cycle_check.specs.Rows.{AreRows, count_of, row, relation};
ghost use Rattle.cycle_check.specs.Ways.{IsNoted, AllLeftBelow, AreLeftBelow, LeadsBack};

use crate::notifying::{push, zeros};
use crate::row::row;
use net_names::NoMemory;
use std::alloc::Global;

/// A way down, and the place on it to which it comes back.
#[derive(Drop)]
pub struct Way {
    pub places: Vec<u32>,
    pub back: u32,
}

// The first place with a count above 0, or the number of places where there is none.
pub fn first_left(counts: &[u32]) -> usize
    ensures all { length counts.now ≤ result → (p : ℕ) → p < length counts.now → slice_index counts.now p ≡ 0 }
    ensures here { result < length counts.now → 0 < slice_index counts.now result }
{
    for place in 0..counts.len() {
        if counts[place] > 0 {
            return place;
        }
    }
    counts.len()
}

// Writes the customer at each place of its list of providers.
fn note_customer(providers: &[u32], below: &mut [u32], customer: u32)
    requires within { (k : ℕ) → k < length providers.now → slice_index providers.now k < length below.old }
    ensures { (p : ℕ) → p < length below.old →
        IsNoted providers.now customer p (slice_index below.old p) (slice_index below.new p) }
{
    for provider in providers {
        below[*provider as usize] = customer;
    }
}

// A customer without a rank at each place without a rank.
fn note_customers(starts: &[u32], items: &[u32], counts: &[u32], below: &mut [u32])
    requires rows { AreRows starts.now items.now }
    requires counts { length counts.now ≡ count_of starts.now }
    requires room { length below.old ≡ count_of starts.now }
    requires left { AllLeftBelow (row starts.now items.now) (count_of starts.now) counts.now }
    ensures { AreLeftBelow (row starts.now items.now) (count_of starts.now) counts.now below.new }
{
    for customer in 0..counts.len() {
        if counts[customer] > 0 {
            note_customer(row(starts, items, customer), below, customer as u32);
        }
    }
}

// Goes down from a place without a rank, until the way comes back to a place on it.
fn way_down(
    alloc: Global,
    starts: &[u32],
    items: &[u32],
    counts: &[u32],
    below: &[u32],
    start: usize,
) -> Result<Way, NoMemory>
    requires few { length counts.now < 2 ^ 32 }
    requires room { length below.now ≡ length counts.now }
    requires start { start < length counts.now }
    requires left { 0 < slice_index counts.now start }
    requires below { AreLeftBelow (row starts.now items.now) (length counts.now) counts.now below.now }
    ensures { IfOk result (λ w. LeadsBack (relation starts.now items.now) w.places.items w.back) }
{
    let mut seen = zeros(alloc, counts.len())?;
    let mut places = Vec::new(alloc);
    let mut at = start;
    while seen[at] == 0 {
        seen[at] = 1;
        push(&mut places, at as u32)?;
        at = below[at] as usize;
    }
    Ok(Way {
        places,
        back: at as u32,
    })
}

// A way down from a place without a rank, which comes back to a place on it.
pub fn way_back(
    alloc: Global,
    starts: &[u32],
    items: &[u32],
    counts: &[u32],
    start: usize,
) -> Result<Way, NoMemory>
    requires rows { AreRows starts.now items.now }
    requires counts { length counts.now ≡ count_of starts.now }
    requires start { start < length counts.now }
    requires left { 0 < slice_index counts.now start }
    requires below { AllLeftBelow (row starts.now items.now) (count_of starts.now) counts.now }
    ensures { IfOk result (λ w. LeadsBack (relation starts.now items.now) w.places.items w.back) }
{
    let mut below = zeros(alloc, counts.len())?;
    note_customers(starts, items, counts, &mut below);
    way_down(alloc, starts, items, counts, &below, start)
}
