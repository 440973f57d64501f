//! The graph.
ghost use Rattle.std.specs.Prelude.{◌≡◌, ◌<◌, ◌≤◌, ℕ, Some, length, nat_eq, true, false, IfOk, IfErr, OnOk, IfSome, IfNone};
ghost use Rattle.std.specs.List.{IsDistinct};
ghost use Rattle.std.specs.List.Sorted.{IsStrictlyIncreasing};
ghost use Rattle.std.specs.FinMap as map;
ghost use Rattle.std.specs.FinSet as set;
ghost use Rattle.net_names.specs.Prelude.{occurs};
ghost use Rattle.net_names.specs.declared.routes.Rel.{Rel as ARel};
ghost use Rattle.as_graph.specs.Neighbours.{AreNeighbours};
ghost use Rattle.as_graph.specs.Topology.{relation, has, as_count, unmarked};
ghost use Rattle.as_graph.specs.Following.{IsAbove, IsNext};
ghost use Rattle.as_graph.specs.declared.build.TheConstants.{MOST_ASES};
ghost use Rattle.net_names.specs.declared.links.TheConstants.{MOST_LINKS};

use crate::build::{order_of, rows_of};
use crate::error::GraphError;
use crate::neighbour::Neighbour;
use crate::order::start_above;
use crate::places::{Places, places_of};
use crate::row::Row;
use indexmap::IndexMap;
use net_names::{Asn, Links, Rel};
use std::alloc::Global;
use std::marker::Model;

mod edits;
mod links;

/// Links between ASes, and marked ASes. Contracts see the finite map of the links, the set of the
/// marked ASes, and the pair of ASes for which there is room, if there is any. The ASes of the graph
/// are the ends of its links and the marked ASes, at most 150,000; the links are at most 1,500,000.
#[derive(Drop)]
pub struct Graph {
    alloc: Global,
    rows: IndexMap<Asn, Row>,
    order: Vec<Asn>,
    links: usize,
    places: Places,
    room: Option<(Asn, Asn)>,
}

impl Model for Graph {
    ghost use Rattle.as_graph.specs.Topology.{Topology, topology_code};

    ghost Value = { Topology };

    ghost coded = { topology_code };

    ghost use Rattle.std.specs.Prelude.{vec_capacity};
    ghost use Rattle.as_graph.specs.Graphs.{graph_of, IsKept};
    ghost use Rattle.as_graph.specs.Writes.{IsRoomy};

    ghost view = { λ g. graph_of g.rows g.room };

    ghost invariant = { λ g. IsKept g.rows g.order.items g.links × IsRoomy g.rows (vec_capacity g.order) g.room };
}

impl Graph {
    ghost use Rattle.as_graph.specs.Refusals.{IsBuildRefusal};

    /// The graph with just these links and no marks. `TooManyAses` exactly where their ends are more
    /// than 150,000, unless there is not enough memory.
    pub fn build(alloc: Global, links: &Links) -> Result<Graph, GraphError>
        ensures ok { IfOk result (λ g. g ≡ unmarked links.now) }
        ensures few { OnOk result (as_count (unmarked links.now) ≤ MOST_ASES) }
        ensures refused { IfErr result (IsBuildRefusal links.now) }
    {
        let rows = rows_of(alloc, links)?;
        let order = order_of(alloc, &rows)?;
        let places = places_of(alloc, &rows)?;
        Ok(Graph {
            alloc,
            rows,
            order,
            links: links.len(),
            places,
            room: None,
        })
    }

    /// What `b` is to `a`; `None` exactly where they have no link.
    pub fn rel(&self, a: Asn, b: Asn) -> Option<Rel>
        ensures { result ≡ relation self.now a b }
    {
        self.rows.get(&a)?.rel(b)
    }

    /// Each link stands at the pair with the lower AS first.
    pub fn links_stand_lower_first(&self)
        ensures { (q : ℕ × ℕ) (r : ARel) → map.get self.now.links q ≡ Some r → q.0 < q.1 }
    {
        // It is so of the rows of every graph.
        let _ = self.rows.len();
    }

    /// The neighbours of an AS in rising order of their numbers; none where the AS is not there.
    pub fn neighbours(&self, asn: Asn) -> &[Neighbour]
        ensures { AreNeighbours (relation self.now) asn result.now }
    {
        match self.rows.get(&asn) {
            Some(row) => row.as_slice(),
            None => &[],
        }
    }

    /// The neighbours of an AS, as `neighbours` gives them, sought first in the row at a place.
    pub fn neighbours_near(&self, asn: Asn, place: usize) -> &[Neighbour]
        ensures { AreNeighbours (relation self.now) asn result.now }
    {
        match self.rows.get_index(place) {
            Some((found, row)) if *found == asn => row.as_slice(),
            _ => self.neighbours(asn),
        }
    }

    /// Where the rows of the neighbours of the AS at a place stand, in the order of the neighbours.
    /// These are hints: no contract says what they are, and whoever uses one compares the number
    /// that stands there.
    pub fn neighbour_places(&self, place: usize) -> &[u32] {
        self.places.of_row(place)
    }

    /// Where the row of an AS stands among the rows, sought first at a place. It is a hint, as in
    /// [`Graph::neighbour_places`].
    pub fn place_near(&self, asn: Asn, place: usize) -> usize {
        match self.rows.get_index(place) {
            Some((found, _)) if *found == asn => place,
            _ => self.rows.get_index_of(&asn).unwrap_or(0),
        }
    }

    /// Where the row of the first of these ASes stands. It is a hint, as in [`Graph::neighbour_places`].
    pub fn row_of_first(&self, ases: &[Asn]) -> usize {
        match ases.first() {
            Some(asn) => self.place_near(*asn, 0),
            None => 0,
        }
    }

    /// The ASes that have a row, each once, in the order of the rows. All ASes of the graph are
    /// among them.
    pub fn rows(&self) -> &[Asn]
        ensures complete { (a : ℕ) → has self.now a ≡ true → occurs a result.now ≡ true }
        ensures apart { IsDistinct nat_eq result.now }
    {
        self.rows.keys().as_slice()
    }

    /// Whether the AS is an AS of the graph.
    pub fn has(&self, asn: Asn) -> bool
        ensures { result ≡ has self.now asn }
    {
        match self.rows.get(&asn) {
            Some(row) => row.is_needed(),
            None => false,
        }
    }

    /// The least AS above `after`, or the least of all where there is no bound; `None` exactly where
    /// there is none.
    pub fn next(&self, after: Option<Asn>) -> Option<Asn>
        ensures found { IfSome result (IsNext self.now after) }
        ensures none { IfNone result ((k : ℕ) → IsAbove after k → has self.now k ≡ false) }
    {
        let order = self.order.as_slice();
        let at = start_above(order, after);
        if at < order.len() {
            Some(order[at])
        } else {
            None
        }
    }

    /// The ASes of the graph in rising order of their numbers.
    pub fn ases(&self) -> &[Asn]
        ensures listed { (a : ℕ) → occurs a result.now ≡ has self.now a }
        ensures apart { IsDistinct nat_eq result.now }
        ensures counted { length result.now ≡ as_count self.now }
        ensures rising { IsStrictlyIncreasing result.now }
    {
        self.order.as_slice()
    }

    /// How many ASes the graph has, at most 150,000.
    pub fn as_count(&self) -> usize
        ensures value { result ≡ as_count self.now }
        ensures few { result ≤ MOST_ASES }
    {
        self.order.len()
    }

    /// How many links the graph has, at most 1,500,000.
    pub fn link_count(&self) -> usize
        ensures value { result ≡ map.len self.now.links }
        ensures few { result ≤ MOST_LINKS }
    {
        self.links
    }
}
