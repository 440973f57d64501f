//! Queues of ASes by rank.

ghost use Rattle.std.specs.Prelude.{◌≡◌, ℕ, Some, false};
ghost use Rattle.dirty_recompute.specs.Fews.{few_has};
ghost use Rattle.dirty_recompute.specs.declared.spots.Spots.{Spots as TheSpots};

use crate::crowding::{fill, put_waiting, spots_of};
use crate::few::Few;
use crate::planned_ranks::PlannedRanks;
use crate::spots::Spots;
use crate::way::Way;
use as_graph::Graph;
use net_names::{Asn, NoMemory};
use std::alloc::Global;

/// Of so many ASes of a graph one may wait in a set, before each AS gets a spot.
const CROWD: usize = 8;

/// ASes that wait, each under its rank: few in a set, and many by a mark at the spot of each.
#[derive(Drop)]
pub(crate) struct Queue {
    alloc: Global,
    // Who waits, where the ASes have no spots.
    pub few: Few,
    // The spots, once many have waited.
    pub spots: Option<Spots>,
    // The spots have been asked for.
    asked: bool,
    // Where the row of the AS that was taken out last may stand in the graph, or of one that waits.
    row: usize,
    ghost apart: { (s : TheSpots) → spots ≡ Some s → (rank : ℕ → ℕ) (k : ℕ × ℕ) → few_has rank few k ≡ false },
}

impl Queue {
    ghost use Rattle.std.specs.Prelude.{true, false, None, Some, OnOk, IfSome, IfNone};
    ghost use Rattle.dirty_recompute.specs.PlannedRanks.{rank_of};
    ghost use Rattle.dirty_recompute.specs.Queues.{contains, waits, HasRanks, IsAdded, IsIn, IsNext, IsSame};

    /// Nobody waits. The row of the first AS that is taken out may stand there in the graph.
    pub(crate) fn new(alloc: Global, row: usize) -> Queue
        ensures none { (rank : ℕ → ℕ) (k : ℕ × ℕ) → contains rank result k ≡ false }
        ensures spots { result.spots ≡ None }
    {
        Queue {
            alloc,
            few: Few::new(alloc),
            spots: None,
            asked: false,
            row,
        }
    }

    /// Whether many have waited, so that each AS has a spot.
    pub(crate) fn is_crowded(&self) -> bool {
        self.spots.is_some()
    }

    /// Where the row of the AS that was taken out last may stand in the graph. It is a hint.
    pub(crate) fn row(&self) -> usize {
        self.row
    }

    // Gives each AS a spot, where many wait in the set.
    fn widen(&mut self, graph: &Graph, ranks: &PlannedRanks) -> Result<(), NoMemory>
        ensures { OnOk result (IsSame (rank_of ranks.now) self.old self.new) }
    {
        if self.asked || self.spots.is_some() || self.few.is_within(graph.as_count() / CROWD) {
            return Ok(());
        }
        self.asked = true;
        let keys = self.few.keys(self.alloc)?;
        let Some(mut spots) = spots_of(self.alloc, graph, ranks)? else {
            return Ok(());
        };
        if fill(&mut spots, graph, keys.as_slice()) {
            self.few = Few::new(self.alloc);
            self.spots = Some(spots);
            return Ok(());
        }
        Ok(())
    }

    // Takes the spots away, and puts those who wait into the set.
    fn gather(&mut self, ranks: &PlannedRanks) -> Result<(), NoMemory>
        ensures same { OnOk result (IsSame (rank_of ranks.now) self.old self.new) }
        ensures spots { OnOk result (self.new.spots ≡ None) }
    {
        match self.spots.take() {
            Some(spots) => put_waiting(&mut self.few, ranks, spots.items.as_slice()),
            None => Ok(()),
        }
    }

    // Marks the spot of an AS, whose row may stand there, and answers whether it has one.
    fn mark_spot(&mut self, graph: &Graph, asn: Asn, row: usize) -> bool
        ensures yes { result ≡ true → (rank : ℕ → ℕ) → IsAdded rank self.old self.new (λ b. b ≡ asn) }
        ensures no { result ≡ false → (rank : ℕ → ℕ) → IsSame rank self.old self.new }
    {
        match &mut self.spots {
            Some(spots) => match spots.find_near(graph, asn, row) {
                Some(at) => {
                    spots.mark(at, true);
                    true
                }
                None => false,
            },
            None => false,
        }
    }

    /// Puts an AS into the queue, under its rank. Its row may stand there in the graph.
    pub(crate) fn add(
        &mut self,
        graph: &Graph,
        ranks: &PlannedRanks,
        asn: Asn,
        row: usize,
    ) -> Result<(), NoMemory>
        ensures { OnOk result (IsAdded (rank_of ranks.now) self.old self.new (λ b. b ≡ asn)) }
    {
        self.widen(graph, ranks)?;
        if self.mark_spot(graph, asn, row) {
            return Ok(());
        }
        self.gather(ranks)?;
        self.few.put(ranks, asn)
    }

    /// Puts ASes into the queue.
    pub(crate) fn add_all(
        &mut self,
        graph: &Graph,
        ranks: &PlannedRanks,
        asns: &[Asn],
    ) -> Result<(), NoMemory>
        ensures { OnOk result (IsAdded (rank_of ranks.now) self.old self.new (IsIn asns.now)) }
    {
        for asn in asns {
            self.add(graph, ranks, *asn, 0)?;
        }
        Ok(())
    }

    /// Takes the AS out of the queue that comes next on this way.
    pub(crate) fn pop(&mut self, way: Way) -> Option<Asn>
        ensures taken { (rank : ℕ → ℕ) → HasRanks rank self.old → IfSome result (IsNext way rank self.old self.new) }
        ensures none { (rank : ℕ → ℕ) → IfNone result ((b : ℕ) → waits rank self.old b ≡ false) }
    {
        match &mut self.spots {
            Some(spots) => match spots.take(way) {
                Some(spot) => {
                    self.row = spot.row as usize;
                    Some(spot.asn)
                }
                None => None,
            },
            None => self.few.pop(way),
        }
    }
}

/// The ASes that wait for a turn.
#[derive(Drop)]
pub(crate) struct Queues {
    /// Those that wait for a turn upwards.
    pub up: Queue,
    /// Those that are to choose among all offers.
    pub whole: Queue,
}
