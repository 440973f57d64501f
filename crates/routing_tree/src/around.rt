//! The places of the neighbours of each AS of an order.

ghost use Rattle.std.specs.Prelude.{◌≡◌, ◌≤◌, [], ℕ, Some, true, length, slice_get, IfOk, OnOk};
ghost use Rattle.net_names.specs.Prelude.{occurs};
ghost use Rattle.net_names.specs.declared.routes.Rel.{Rel as ARel};
ghost use Rattle.as_graph.specs.Prelude.{has, relation};
ghost use Rattle.as_graph.specs.declared.build.TheConstants.{MOST_ASES};
ghost use Rattle.rank_order.specs.Ranks.{IsRankOrder};
ghost use Rattle.routing_tree.specs.Links.{AreLinksOf, ArePlacesOf, HasLists, HasOneMore, IsPut, places_of};

use crate::links::{PlaceLists, PlacedLinks};
use as_graph::{Graph, links_are_sound};
use as_places::AsPlaces;
use net_names::{Asn, NoMemory, Rel, place_at};
use rank_order::RankOrder;
use std::alloc::Global;

// The places of the customers, of the peers and of the providers of one AS.
#[derive(Drop)]
struct Around {
    customers: Vec<u32>,
    peers: Vec<u32>,
    providers: Vec<u32>,
}

// The place of an AS that has one, sought first at a place, which is a hint.
#[inline(always)]
fn place_in(places: &AsPlaces, asn: Asn, hint: usize) -> u32
    requires few { length places.now.ases ≤ MOST_ASES }
    requires there { occurs asn places.now.ases ≡ true }
    ensures { slice_get places.now.ases result ≡ Some asn }
{
    match places.place_near(asn, hint) {
        Some(place) => place as u32,
        None => unreachable!(),
    }
}

impl Around {
    // No place.
    fn none(alloc: Global) -> Around {
        Around {
            customers: Vec::new(alloc),
            peers: Vec::new(alloc),
            providers: Vec::new(alloc),
        }
    }

    // Forgets all places.
    fn clear(&mut self)
        ensures customers { self.new.customers.items ≡ [] }
        ensures peers { self.new.peers.items ≡ [] }
        ensures providers { self.new.providers.items ≡ [] }
    {
        self.customers.clear();
        self.peers.clear();
        self.providers.clear();
    }

    // Puts a place behind those of its kind.
    #[inline(always)]
    fn put(&mut self, rel: Rel, place: u32) -> Result<(), NoMemory>
        ensures { OnOk result (IsPut rel place self.old self.new) }
    {
        match rel {
            Rel::Customer => Ok(self.customers.push(place)?),
            Rel::Peer => Ok(self.peers.push(place)?),
            Rel::Provider => Ok(self.providers.push(place)?),
        }
    }

    // The places become those of the neighbours of an AS, whose row is sought first at a place. All ASes of the graph have
    // places; the hints have them by the rows of the graph.
    fn gather(
        &mut self,
        graph: &Graph,
        places: &AsPlaces,
        hints: &[u32],
        asn: Asn,
        row: usize,
    ) -> Result<(), NoMemory>
        requires few { length places.now.ases ≤ MOST_ASES }
        requires all { (n : ℕ) → has graph.now n ≡ true → occurs n places.now.ases ≡ true }
        ensures { OnOk result ((r : ARel) →
            ArePlacesOf (relation graph.now) places.now.ases asn r (places_of self.new r)) }
    {
        links_are_sound();
        self.clear();
        let neighbours = graph.neighbours_near(asn, row);
        let rows = graph.neighbour_places(row);
        for (index, neighbour) in neighbours.iter().enumerate() {
            let hint = place_at(hints, place_at(rows, index));
            let place = place_in(places, neighbour.asn, hint);
            self.put(neighbour.rel, place)?;
        }
        Ok(())
    }
}

// For each row of the graph the place in the order of the AS that has it, where these are the rows in the order. These are
// hints.
fn places_by_row(alloc: Global, count: usize, rows: &[u32]) -> Result<Vec<u32>, NoMemory> {
    let mut places = Vec::from_elem(alloc, 0u32, count)?;
    for (place, row) in rows.iter().enumerate() {
        if let Some(kept) = places.get_mut(*row as usize) {
            *kept = u32::try_from(place).unwrap_or(0);
        }
    }
    Ok(places)
}

impl PlacedLinks {
    // No lists.
    fn none(alloc: Global) -> Result<PlacedLinks, NoMemory>
        ensures { IfOk result (HasLists 0) }
    {
        Ok(PlacedLinks {
            customers: PlaceLists::none(alloc)?,
            peers: PlaceLists::none(alloc)?,
            providers: PlaceLists::none(alloc)?,
        })
    }

    // Puts the places around one more AS behind the others.
    fn push(&mut self, around: &Around) -> Result<(), NoMemory>
        ensures customers { OnOk result (HasOneMore self.old.customers self.new.customers around.now.customers.items) }
        ensures peers { OnOk result (HasOneMore self.old.peers self.new.peers around.now.peers.items) }
        ensures providers { OnOk result (HasOneMore self.old.providers self.new.providers around.now.providers.items) }
    {
        self.customers.push(around.customers.as_slice())?;
        self.peers.push(around.peers.as_slice())?;
        self.providers.push(around.providers.as_slice())?;
        Ok(())
    }

    /// The links of a graph, whose ASes stand in this order. The only refusal is want of memory.
    pub fn of(alloc: Global, graph: &Graph, order: &RankOrder) -> Result<PlacedLinks, NoMemory>
        requires { (rank : ℕ → ℕ) × IsRankOrder (has graph.now) rank order.now.ases.items }
        ensures links { IfOk result (AreLinksOf (relation graph.now) order.now.ases.items) }
        ensures lists { IfOk result (HasLists (length order.now.ases.items)) }
    {
        let ases = order.ases.as_slice();
        let count = graph.as_count();
        let places = AsPlaces::of(alloc, ases)?;
        let hints = places_by_row(alloc, count, &order.places)?;
        let mut links = PlacedLinks::none(alloc)?;
        let mut around = Around::none(alloc);
        for (place, asn) in ases.iter().enumerate() {
            let row = place_at(&order.places, place);
            around.gather(graph, &places, &hints, *asn, row)?;
            links.push(&around)?;
        }
        Ok(links)
    }
}
