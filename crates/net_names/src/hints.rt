//! Where numbers stand in a rising list: a bitmap with ranks. What is found is a hint, and whoever uses it
//! compares the number that stands there.
ghost use Rattle.std.specs.Prelude.{◌<◌, ◌≤◌, ◌^◌, length, IfOk};

use crate::numbers::Asn;
use std::alloc::{AllocError, Global};

// How many numbers a group is for.
const WIDTH: u32 = 64;

// The numbers below this one are low, and have groups.
const GROUPED: u32 = 1_048_576;

// Which numbers of a group stand in the list, a bit for each, and where the first of them stands.
#[derive(Clone, Copy)]
struct Group {
    numbers: u64,
    from: u32,
}

// The bit of a number in its group.
#[inline(always)]
fn bit_of(asn: Asn) -> u64 {
    1 << (asn.get() % WIDTH)
}

// How many groups the numbers need.
fn group_count(numbers: &[Asn]) -> usize {
    match numbers.last() {
        Some(asn) => (asn.get().min(GROUPED) / WIDTH) as usize + 1,
        None => 0,
    }
}

// Puts a number that stands at a place into its group.
fn put(groups: &mut [Group], asn: Asn, place: u32) {
    if let Some(group) = groups.get_mut((asn.get() / WIDTH) as usize) {
        if group.numbers == 0 {
            group.from = place;
        }
        group.numbers |= bit_of(asn);
    }
}

// Puts the low numbers into their groups, and tells how many they are.
fn put_low(groups: &mut [Group], numbers: &[Asn]) -> usize
    requires { length numbers.now < 2 ^ 32 }
    ensures { result ≤ length numbers.now }
{
    for (place, asn) in numbers.iter().enumerate() {
        if asn.get() >= GROUPED {
            return place;
        }
        put(groups, *asn, place as u32);
    }
    numbers.len()
}

/// Where the low numbers of a rising list stand, those below 1,048,576: for each group of 64 numbers a bit
/// for each that is in the list, and the place of the first. Few lines of memory are read for a number.
#[derive(Drop)]
pub struct NumberGroups {
    groups: Vec<Group>,
}

impl NumberGroups {
    /// The groups of the low ones of these numbers, which rise, and how many are low.
    pub fn of(alloc: Global, numbers: &[Asn]) -> Result<(NumberGroups, usize), AllocError>
        requires { length numbers.now < 2 ^ 32 }
        ensures { IfOk result (λ made. made.1 ≤ length numbers.now) }
    {
        let none = Group {
            numbers: 0,
            from: 0,
        };
        let mut groups = Vec::from_elem(alloc, none, group_count(numbers))?;
        let low = put_low(&mut groups, numbers);
        Ok((NumberGroups { groups }, low))
    }

    /// Whether the number is low.
    #[inline(always)]
    pub fn is_low(asn: Asn) -> bool {
        asn.get() < GROUPED
    }

    /// The place of a number, if it is low and in the list.
    #[inline(always)]
    pub fn place(&self, asn: Asn) -> Option<u32> {
        let group = self.groups.get((asn.get() / WIDTH) as usize)?;
        let bit = bit_of(asn);
        if group.numbers & bit == 0 {
            return None;
        }
        let before = group.numbers & bit.wrapping_sub(1);
        Some(group.from.wrapping_add(before.count_ones()))
    }

    /// Where a number would stand, if it is in the list. `None` where its group is not kept: each low number
    /// of the list has one.
    #[inline(always)]
    pub fn near(&self, asn: Asn) -> Option<usize> {
        let group = self.groups.get((asn.get() / WIDTH) as usize)?;
        let before = group.numbers & bit_of(asn).wrapping_sub(1);
        Some(group.from.wrapping_add(before.count_ones()) as usize)
    }
}

/// The place at an index, or the first one where there is none.
#[inline(always)]
pub fn place_at(places: &[u32], index: usize) -> usize {
    match places.get(index) {
        Some(place) => *place as usize,
        None => 0,
    }
}
