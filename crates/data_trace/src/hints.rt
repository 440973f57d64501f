//! Where numbers stand in a list: a bitmap with ranks for low ones, and a table by remainders for the others. What
//! is found is a hint.
ghost use Rattle.std.specs.Prelude.{◌≤◌, length};
ghost use Rattle.as_graph.specs.declared.build.TheConstants.{MOST_ASES};

use crate::Hop;
use net_names::{Asn, NumberGroups, place_at};
use std::alloc::{AllocError, Global};

// There are at most this many slots.
const MANY: usize = 1_048_576;

/// For low numbers groups, of which few lines of memory are read; for each of the others a slot, which
/// it may share with some, and in which stands the place of one of them. No contract says which: whoever
/// uses a place compares the number that stands there.
#[derive(Drop)]
pub struct Hints {
    groups: NumberGroups,
    places: Vec<u32>,
}

// The least power of two that is not below this count, and at most `MANY`.
fn slots_for(count: usize) -> usize
    ensures { result ≤ 2097152 }
{
    let mut slots = 1;
    while slots < count && slots < MANY {
        slots *= 2;
    }
    slots
}

// How many slots so many numbers need, of which some are low: none are needed where all are.
fn slot_count(low: usize, count: usize) -> usize
    requires { count ≤ MOST_ASES }
    ensures { result ≤ 2097152 }
{
    if low == count {
        0
    } else {
        slots_for(4 * count)
    }
}

impl Hints {
    /// The places of these numbers, which rise.
    pub fn of(alloc: Global, numbers: &[Asn]) -> Result<Hints, AllocError>
        requires { length numbers.now ≤ MOST_ASES }
    {
        let (groups, low) = NumberGroups::of(alloc, numbers)?;
        let places = Vec::from_elem(alloc, 0, slot_count(low, numbers.len()))?;
        let mut hints = Hints { groups, places };
        for place in low..numbers.len() {
            hints.put(numbers[place], place as u32);
        }
        Ok(hints)
    }

    // The slot of a number.
    fn slot(&self, asn: Asn) -> usize {
        asn.get() as usize & self.places.len().wrapping_sub(1)
    }

    // Puts the place of a number into its slot.
    fn put(&mut self, asn: Asn, place: u32) {
        let slot = self.slot(asn);
        if let Some(kept) = self.places.get_mut(slot) {
            *kept = place;
        }
    }

    /// Where the AS of a next hop may stand.
    pub fn near(&self, hop: &Hop) -> usize {
        let Hop::To(asn) = hop else {
            return 0;
        };
        match self.groups.near(*asn) {
            Some(place) => place,
            None => place_at(&self.places, self.slot(*asn)),
        }
    }
}
