//! A link is set: in place of one that the pair has, or as a new one.
ghost use Rattle.std.specs.Prelude.{◌≡◌, ◌≢◌, ◌<◌, ◌≤◌, None, if◌then◌else◌, IfErr, OnOk, OnErr};
ghost use Rattle.std.specs.FinMap as map;
ghost use Rattle.net_names.specs.declared.routes.Rel.{Rel as ARel};
ghost use Rattle.as_graph.specs.Topology.{relation, as_count};
ghost use Rattle.as_graph.specs.Room.{is_room_for, only_room_for};
ghost use Rattle.as_graph.specs.Edits.{with_link};
ghost use Rattle.as_graph.specs.Refusals.{IsLinkRefusal};

use crate::build::MOST_ASES;
use crate::error::GraphError;
use crate::graph::Graph;
use crate::order::list;
use crate::writes::{make_ends, put_link, reserve_places};
use net_names::{Asn, MOST_LINKS, Rel};

// The room, if it is for this pair.
fn room_for(room: Option<(Asn, Asn)>, a: Asn, b: Asn) -> Option<(Asn, Asn)>
    ensures { result ≡ (if is_room_for room a b then room else None) }
{
    match room {
        Some((x, y)) if (x == a && y == b) || (x == b && y == a) => Some((x, y)),
        _ => None,
    }
}

// How many more ASes there are with an AS.
fn one_new(there: bool) -> usize
    ensures { result ≡ (if there then 0 else 1) }
{
    if there { 0 } else { 1 }
}

impl Graph {
    /// Sets the link of a pair that has one.
    pub(super) fn replace(&mut self, a: Asn, b: Asn, rel: Rel)
        requires { relation self.old a b ≢ None }
        ensures set { self.new ≡ only_room_for (with_link self.old a b rel) a b }
        ensures few { as_count (with_link self.old a b rel) ≤ MOST_ASES }
    {
        put_link(&mut self.rows, &mut self.places, a, b, rel);
        self.room = room_for(self.room, a, b);
    }

    // How many ASes there are with a link of the pair.
    fn as_count_with(&self, a: Asn, b: Asn) -> usize
        requires { a ≢ b }
        ensures { (r : ARel) → result ≡ as_count (with_link self.now a b r) }
    {
        self.order.len() + one_new(self.has(a)) + one_new(self.has(b))
    }

    /// Sets the link of a pair that has none.
    pub(super) fn add(&mut self, a: Asn, b: Asn, rel: Rel) -> Result<(), GraphError>
        requires differ { a ≢ b }
        requires new { relation self.old a b ≡ None }
        ensures ok { OnOk result (self.new ≡ only_room_for (with_link self.old a b rel) a b) }
        ensures few_links { OnOk result (map.len self.old.links < MOST_LINKS) }
        ensures few_ases { OnOk result (as_count (with_link self.old a b rel) ≤ MOST_ASES) }
        ensures err { OnErr result (self.new ≡ self.old) }
        ensures refused { IfErr result (IsLinkRefusal self.old a b rel) }
    {
        if self.links >= MOST_LINKS {
            return Err(GraphError::TooManyLinks);
        }
        if self.as_count_with(a, b) > MOST_ASES {
            return Err(GraphError::TooManyAses);
        }
        make_ends(&mut self.rows, &mut self.order, self.alloc, a, b)?;
        reserve_places(&self.rows, &mut self.places, self.alloc, a, b);
        put_link(&mut self.rows, &mut self.places, a, b, rel);
        list(&mut self.order, a);
        list(&mut self.order, b);
        self.links += 1;
        self.room = room_for(self.room, a, b);
        Ok(())
    }
}
