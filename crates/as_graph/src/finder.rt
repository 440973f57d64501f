//! Finds numbers in a rising list, by a bitmap with ranks and a search. What is found is a hint.
ghost use Rattle.std.specs.Prelude.{◌≤◌, length};
ghost use Rattle.as_graph.specs.declared.build.TheConstants.{MOST_ASES};

use net_names::{Asn, NumberGroups};
use std::alloc::{AllocError, Global};

/// Finds numbers in a rising list: the low ones by the groups of numbers in which they are, the
/// others by a search.
#[derive(Drop)]
pub struct Finder<'a> {
    groups: NumberGroups,
    // the numbers that are in no group, and where the first of them stands
    others: &'a [Asn],
    from: u32,
}

impl<'a> Finder<'a> {
    /// A finder in a list that rises.
    pub fn new(alloc: Global, numbers: &'a [Asn]) -> Result<Finder<'a>, AllocError>
        requires { length numbers.now ≤ MOST_ASES }
    {
        let (groups, low) = NumberGroups::of(alloc, numbers)?;
        Ok(Finder {
            groups,
            others: &numbers[low..],
            from: low as u32,
        })
    }

    /// The place of a number, if it is in the list.
    pub fn place(&self, asn: Asn) -> Option<u32> {
        if NumberGroups::is_low(asn) {
            return self.groups.place(asn);
        }
        match self.others.binary_search(&asn) {
            Ok(at) => Some(self.from.wrapping_add(u32::try_from(at).unwrap_or(0))),
            Err(_) => None,
        }
    }
}
