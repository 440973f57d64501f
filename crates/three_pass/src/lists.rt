//! Lists of providers, one after the other in one region.

ghost use Rattle.std.specs.Prelude.{◌≡◌, ◌<◌, ◌+◌, ℕ, length, OnOk, IfOk};
ghost use Rattle.three_pass.specs.Starts.{AreStarts};

use crate::looks::Looks;
use as_graph::Neighbour;
use net_names::NoMemory;
use std::alloc::Global;

/// Lists of providers: each begins where the one before it ends.
#[derive(Drop)]
pub struct ProviderLists {
    starts: Vec<usize>,
    items: Vec<Neighbour>,
    // for each item, where its row was last found in the graph
    places: Vec<u32>,
    ghost starts_are: { AreStarts starts.items (length items.items) },
}

impl ProviderLists {
    ghost use Rattle.three_pass.specs.Lists.{list_at, count_of};

    /// No list.
    pub fn none(alloc: Global) -> Result<ProviderLists, NoMemory>
        ensures { IfOk result (λ l. count_of l ≡ 0) }
    {
        let starts = Vec::from_elem(alloc, 0, 1)?;
        Ok(ProviderLists {
            starts,
            items: Vec::new(alloc),
            places: Vec::new(alloc),
        })
    }

    /// The list at a place.
    pub fn list(&self, place: usize) -> &[Neighbour]
        requires { place < count_of self.now }
        ensures { result.now ≡ list_at self.now place }
    {
        &self.items[self.starts[place]..self.starts[place + 1]]
    }

    /// Where the rows of the providers of the list at a place were last found in the graph, in their
    /// order. These are hints.
    pub fn places(&self, place: usize) -> &[u32]
        requires { place < count_of self.now }
    {
        match self.places.get(self.starts[place]..self.starts[place + 1]) {
            Some(places) => places,
            None => &[],
        }
    }

    /// Puts one more list behind the others, which stay.
    pub fn push(&mut self, list: &Looks) -> Result<(), NoMemory>
        ensures count { OnOk result (count_of self.new ≡ count_of self.old + 1) }
        ensures others { OnOk result ((k : ℕ) → k < count_of self.old → list_at self.new k ≡ list_at self.old k) }
        ensures this { OnOk result (list_at self.new (count_of self.old) ≡ list.now.neighbours.items) }
    {
        self.starts.reserve(1)?;
        self.places.extend_from_slice(list.places.as_slice())?;
        self.items.extend_from_slice(list.neighbours.as_slice())?;
        match self.starts.push(self.items.len()) {
            Ok(()) => Ok(()),
            Err(_) => unreachable!(),
        }
    }
}
