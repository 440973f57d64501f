//! Lists of numbers: how far one rises, a search in a rising one, and one in a hash table.
ghost use Rattle.std.specs.Prelude.{◌≡◌, ◌≤◌, length, nat_eq, take, IfOk};
ghost use Rattle.std.specs.List.{IsDistinct};
ghost use Rattle.std.specs.List.Sorted.{IsStrictlyIncreasing};
ghost use Rattle.as_places.specs.Places.{place_of};

use indexmap::IndexSet;
use net_names::{Asn, NoMemory};
use std::alloc::Global;

// How many numbers at the front rise.
pub(crate) fn rising_front(ases: &[Asn]) -> usize
    ensures inside { result ≤ length ases.now }
    ensures rising { IsStrictlyIncreasing (take result ases.now) }
{
    let mut last = 0;
    for (at, asn) in ases.iter().enumerate() {
        let number = asn.get();
        if number <= last {
            return at;
        }
        last = number;
    }
    ases.len()
}

// The place of a number in a rising list.
pub(crate) fn place_in(ases: &[Asn], asn: Asn) -> Option<usize>
    requires { IsStrictlyIncreasing ases.now }
    ensures { result ≡ place_of ases.now asn }
{
    match ases.binary_search(&asn) {
        Ok(place) => Some(place),
        Err(_) => None,
    }
}

// These numbers in their order.
pub(crate) fn gather(alloc: Global, ases: &[Asn]) -> Result<IndexSet<Asn>, NoMemory>
    requires { IsDistinct nat_eq ases.now }
    ensures { IfOk result (λ s. s.keys ≡ ases.now) }
{
    let mut set = IndexSet::new(alloc);
    set.reserve(ases.len())?;
    for asn in ases {
        set.insert(*asn)?;
    }
    Ok(set)
}
