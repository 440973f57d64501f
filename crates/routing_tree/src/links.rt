//! The links of the ASes of an order, each AS by its place.

ghost use Rattle.std.specs.Prelude.{◌≡◌, ◌<◌, ℕ, length, IfOk, OnOk};
ghost use Rattle.routing_tree.specs.Starts.{AreStarts};

use net_names::NoMemory;
use std::alloc::Global;

/// Lists of places, one after the other in one region.
#[derive(Drop)]
pub struct PlaceLists {
    starts: Vec<usize>,
    items: Vec<u32>,
    ghost starts_are: { AreStarts starts.items (length items.items) },
}

impl PlaceLists {
    ghost use Rattle.std.specs.Prelude.{◌+◌, ◌++◌, []};
    ghost use Rattle.routing_tree.specs.Links.{count_of, list_at};

    /// No list.
    pub fn none(alloc: Global) -> Result<PlaceLists, NoMemory>
        ensures count { IfOk result (λ l. count_of l ≡ 0) }
        ensures items { IfOk result (λ l. l.items.items ≡ []) }
    {
        Ok(PlaceLists {
            starts: Vec::from_elem(alloc, 0, 1)?,
            items: Vec::new(alloc),
        })
    }

    /// The list at a place.
    #[inline(always)]
    pub fn list(&self, place: usize) -> &[u32]
        requires { place < count_of self.now }
        ensures { result.now ≡ list_at self.now place }
    {
        &self.items[self.starts[place]..self.starts[place + 1]]
    }

    /// Puts one more list behind the others, which stay.
    pub fn push(&mut self, list: &[u32]) -> Result<(), NoMemory>
        ensures count { OnOk result (count_of self.new ≡ count_of self.old + 1) }
        ensures others { OnOk result ((k : ℕ) → k < count_of self.old → list_at self.new k ≡ list_at self.old k) }
        ensures this { OnOk result (list_at self.new (count_of self.old) ≡ list.now) }
        ensures items { OnOk result (self.new.items.items ≡ self.old.items.items ++ list.now) }
    {
        self.starts.reserve(1)?;
        self.items.extend_from_slice(list)?;
        match self.starts.push(self.items.len()) {
            Ok(()) => Ok(()),
            Err(_) => unreachable!(),
        }
    }
}

/// For each AS of an order, by its place, the places of its customers, of its peers and of its providers.
#[derive(Drop)]
pub struct PlacedLinks {
    /// The customers.
    pub customers: PlaceLists,
    /// The peers.
    pub peers: PlaceLists,
    /// The providers.
    pub providers: PlaceLists,
}
