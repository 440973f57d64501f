//! A provider cycle, listed from its lowest number on.
ghost use Rattle.std.specs.Prelude.{◌≡◌, ◌<◌, ◌≤◌, ◌++◌, nat_lt, true, length, drop, IfOk, OnOk};
ghost use Rattle.std.specs.List.{IsFirstBest};
ghost use Rattle.net_names.specs.Prelude.{occurs};
ghost use Rattle.cycle_check.specs.Places.{place_in};
ghost use Rattle.cycle_check.specs.Cycles.{IsTurned};

use net_names::NoMemory;
use std::alloc::Global;

// The place of the first lowest number.
fn lowest_place(numbers: &[u32]) -> usize
    requires { 0 < length numbers.now }
    ensures { IsFirstBest nat_lt numbers.now (length numbers.now) result }
{
    let mut best = 0;
    for place in 1..numbers.len() {
        if numbers[place] < numbers[best] {
            best = place;
        }
    }
    best
}

// The list turned so that it begins with its lowest number.
fn turned(alloc: Global, numbers: &[u32]) -> Result<Vec<u32>, NoMemory>
    requires { 0 < length numbers.now }
    ensures { IfOk result (λ v. IsTurned numbers.now v.items) }
{
    let place = lowest_place(numbers);
    let mut turned = Vec::new(alloc);
    append(&mut turned, &numbers[place..])?;
    append(&mut turned, &numbers[..place])?;
    Ok(turned)
}

fn append(list: &mut Vec<u32>, more: &[u32]) -> Result<(), NoMemory>
    ensures { OnOk result (list.new.items ≡ list.old.items ++ more.now) }
{
    list.extend_from_slice(more)?;
    Ok(())
}

// The first place of a number in a list, or the list's length where it isn't there.
fn place_of(numbers: &[u32], number: u32) -> usize
    ensures place { result ≡ place_in numbers.now number }
    ensures inside { result ≤ length numbers.now }
{
    for (place, other) in numbers.iter().enumerate() {
        if *other == number {
            return place;
        }
    }
    numbers.len()
}

// The part of a way down from a place on it, as a cycle.
pub fn cycle_from(alloc: Global, way: &[u32], number: u32) -> Result<Vec<u32>, NoMemory>
    requires { occurs number way.now ≡ true }
    ensures { IfOk result (λ v. IsTurned (drop (place_in way.now number) way.now) v.items) }
{
    let place = place_of(way, number);
    turned(alloc, &way[place..])
}
