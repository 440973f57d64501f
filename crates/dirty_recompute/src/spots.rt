//! The ASes of a graph by rising rank, each with a mark where it waits: a priority queue as a bitmap over the order.

ghost use Rattle.std.specs.Prelude.{◌≡◌, ◌-◌, ◌<◌, true, false, Some, slice_get, IfSome, IfNone};
ghost use Rattle.dirty_recompute.specs.declared.spot.Spot.{Spot as ASpot};
ghost use Rattle.dirty_recompute.specs.Spots.{AreApart, AreRising, AreWithin, IsNextPlace, IsWaiting, NoneWaits, place_after};

use crate::spot::Spot;
use crate::way::Way;
use as_graph::Graph;
use net_names::Asn;

/// A spot for each AS of a graph, by rising rank. Putting an AS and taking it out needs no memory, and asks
/// for no rank.
#[derive(Drop)]
pub(crate) struct Spots {
    pub items: Vec<Spot>,
    // For each row of the graph, where its AS stands among the spots. These are hints.
    pub by_row: Vec<u32>,
    // Who waits stands here or behind,
    pub low: usize,
    // and before this place.
    pub high: usize,
    pub ghost apart: { AreApart items.items },
    pub ghost rising: { AreRising items.items },
    pub ghost within: { AreWithin low high items.items },
}

// Whether somebody waits at a place.
fn waits_here(items: &[Spot], at: usize) -> bool
    ensures yes { result ≡ true → IsWaiting items.now at }
    ensures no { result ≡ false → (s : ASpot) → slice_get items.now at ≡ Some s → s.waits ≡ false }
{
    match items.get(at) {
        Some(spot) => spot.waits,
        None => false,
    }
}

// Of the places from `low` on and before `high`, the one that comes after so many on this way.
fn nth_place(low: usize, high: usize, step: usize, way: Way) -> usize
    requires { step < high - low }
    ensures { result ≡ place_after way low high step }
{
    match way {
        Way::Up => low + step,
        Way::Down => high - (step + 1),
    }
}

// The place of the next who waits, where nobody does outside of these bounds.
fn next_waiting(items: &[Spot], low: usize, high: usize, way: Way) -> Option<usize>
    requires within { AreWithin low high items.now }
    ensures some { IfSome result (IsNextPlace way items.now) }
    ensures none { IfNone result (NoneWaits items.now) }
{
    for step in 0..high.saturating_sub(low) {
        let at = nth_place(low, high, step, way);
        if waits_here(items, at) {
            return Some(at);
        }
    }
    None
}

impl Spots {
    ghost use Rattle.std.specs.Prelude.{◌≡◌, ◌<◌, length, IfSome, IfNone};
    ghost use Rattle.dirty_recompute.specs.Spots.{IsSpotOf, IsMarked, IsNextPlace, IsNextTaken, NoneWaits};

    /// Where an AS stands, whose row may stand there in the graph.
    pub(crate) fn find(&self, asn: Asn, row: usize) -> Option<usize>
        ensures { IfSome result (IsSpotOf self.now.items.items asn) }
    {
        let Some(near) = self.by_row.get(row) else {
            return None;
        };
        let at = *near as usize;
        match self.items.get(at) {
            Some(spot) if spot.asn == asn => Some(at),
            _ => None,
        }
    }

    /// Where an AS stands, sought first by the row and then by the row that it has in the graph.
    pub(crate) fn find_near(&self, graph: &Graph, asn: Asn, row: usize) -> Option<usize>
        ensures { IfSome result (IsSpotOf self.now.items.items asn) }
    {
        match self.find(asn, row) {
            Some(at) => Some(at),
            None => self.find(asn, graph.place_near(asn, row)),
        }
    }

    /// The AS at a place waits from now on, or does not.
    pub(crate) fn mark(&mut self, at: usize, waits: bool)
        requires { at < length self.old.items.items }
        ensures { IsMarked self.old.items.items self.new.items.items at waits }
    {
        self.low = self.low.min(at);
        self.high = self.high.max(at + 1);
        self.items[at].waits = waits;
    }

    // Nobody who waits comes earlier than at this place.
    fn begin_at(&mut self, at: usize, way: Way)
        requires { IsNextPlace way self.old.items.items at }
        ensures { self.new.items ≡ self.old.items }
    {
        match way {
            Way::Up => self.low = at,
            Way::Down => self.high = at + 1,
        }
    }

    /// Takes out the next that waits on this way.
    pub(crate) fn take(&mut self, way: Way) -> Option<Spot>
        ensures some { IfSome result (IsNextTaken way self.old.items.items self.new.items.items) }
        ensures none { IfNone result (NoneWaits self.old.items.items) }
        ensures same { IfNone result (self.new.items.items ≡ self.old.items.items) }
    {
        let Some(at) = next_waiting(self.items.as_slice(), self.low, self.high, way) else {
            return None;
        };
        self.begin_at(at, way);
        let spot = self.items[at];
        self.mark(at, false);
        Some(spot)
    }
}
