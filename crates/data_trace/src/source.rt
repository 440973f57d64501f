//! The next hops of the ASes of a graph, as places.
ghost use Rattle.std.specs.Prelude.{◌≡◌, ℕ, ◌<◌, true, length};
ghost use Rattle.data_trace.specs.declared.places.TheConstants.{PLACE_LIMIT};
ghost use Rattle.net_names.specs.Prelude.{occurs};
ghost use Rattle.as_graph.specs.Prelude.{has};
ghost use Rattle.route_choice.specs.Prelude.{round_routing, AreAllLive};
ghost use Rattle.data_trace.specs.declared.places.PlaceHop.TheVariants as APlaceHop;
ghost use Rattle.data_trace.specs.Watches.{StaysInside};
ghost use Rattle.data_trace.specs.Columns.{named};

use crate::Hop;
use crate::columns::{is_in, place_of};
use crate::hops::next_hop_near;
use crate::places::PlaceHop;
use as_graph::Graph;
use as_places::AsPlaces;
use net_names::{Addr, Asn};
use path_pool::PathPool;
use route_choice::RoundTables;
use stability_laws::SeedPlan;

/// The tables of a round over a graph, and a watched address.
#[derive(Drop)]
pub struct Source<'a> {
    pub graph: &'a Graph,
    pub tables: &'a RoundTables,
    pub pool: &'a PathPool,
    pub plan: &'a SeedPlan,
    pub addr: Addr,
    pub ghost live: { AreAllLive pool.now tables.now },
    pub ghost inside: { StaysInside graph.now plan.now (round_routing pool.now tables.now) },
}

impl<'a> Source<'a> {
    ghost use Rattle.data_trace.specs.Sources.{sends};

    // Where the AS of a next hop may stand. It is a hint.
    fn near(&self, hop: &Hop) -> usize {
        match hop {
            Hop::To(asn) => self.graph.place_near(*asn, 0),
            Hop::Here => 0,
            Hop::NoRoute => 0,
        }
    }

    /// Where an AS of the graph sends, and no route of others. The place where its row and its entries
    /// may stand is a hint.
    pub fn hop(&self, ases: &AsPlaces, asn: Asn, place: usize) -> PlaceHop
        requires few { length ases.now.ases < PLACE_LIMIT }
        requires listed { (a : ℕ) → has self.now.graph.now a ≡ true → occurs a ases.now.ases ≡ true }
        ensures named { named ases.now.ases result ≡ sends self.now asn }
        ensures within { (y : ℕ) → result ≡ APlaceHop.To y → y < length ases.now.ases }
    {
        if !is_in(self.graph, asn, place) {
            return PlaceHop::NoRoute;
        }
        let hop = next_hop_near(self.tables, self.pool, self.plan, asn, place, self.addr);
        let near = self.near(&hop);
        place_of(ases, hop, near)
    }
}
