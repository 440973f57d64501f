//! Which ASes are known to hold what is right.
ghost use Rattle.std.specs.Prelude.{◌≡◌, ℕ, false, IsTrue, IsSome, nat_eq, slice_index_or};
ghost use Rattle.std.specs.List.{IsDistinct};
ghost use Rattle.std.proofs.Props.{props};
ghost use Rattle.as_graph.specs.Prelude.{relation};
ghost use Rattle.activations.specs.Settling.{IsMarked, IsRenewed, KeepsOthers, KeepsStrangers, StandsAt};

use as_graph::Graph;
use net_names::{Asn, place_at};
use std::alloc::Global;

/// Marks of the ASes of a graph that are known to hold what is right, at the places of the graph's rows.
#[derive(Drop)]
pub(crate) struct Settled<'a> {
    rows: &'a [Asn],
    marks: Vec<bool>,
    ghost apart: { IsDistinct nat_eq rows.now } by { Prim.hlevel props },
}

// No mark at each of so many places, or at no place.
fn no_marks(alloc: Global, count: usize) -> Vec<bool>
    ensures { (place : ℕ) → slice_index_or result.items place false ≡ false }
{
    match vec![in alloc; false; count] {
        Ok(marks) => marks,
        Err(_) => Vec::new(alloc),
    }
}

// Whether the row of the AS is at the place, which has a mark.
fn stands(rows: &[Asn], marks: &[bool], asn: Asn, place: usize) -> bool
    ensures { IsTrue result → StandsAt rows.now marks.now place asn }
{
    place < rows.len() && place < marks.len() && rows[place] == asn
}

// Marks the AS, if its row is at the place.
fn put_mark(rows: &[Asn], marks: &mut Vec<bool>, asn: Asn, place: usize)
    ensures { KeepsOthers rows.now asn marks.old.items marks.new.items }
{
    if !stands(rows, marks.as_slice(), asn, place) {
        return;
    }
    marks[place] = true;
}

// Takes the mark of the AS, whose row is sought at a place. If it is elsewhere, all marks are given up.
fn take_mark(rows: &[Asn], marks: &mut Vec<bool>, asn: Asn, place: usize)
    requires { IsDistinct nat_eq rows.now }
    ensures { KeepsStrangers (λ a. a ≡ asn) rows.now marks.old.items marks.new.items }
{
    if !stands(rows, marks.as_slice(), asn, place) {
        marks.clear();
        return;
    }
    marks[place] = false;
}

// Takes the marks of the neighbours of the AS, whose row is sought first at a place.
fn take_marks_near(graph: &Graph, rows: &[Asn], marks: &mut Vec<bool>, asn: Asn, place: usize)
    requires { IsDistinct nat_eq rows.now }
    ensures { KeepsStrangers (λ b. IsSome (relation graph.now asn b)) rows.now marks.old.items marks.new.items }
{
    let neighbours = graph.neighbours_near(asn, place);
    let places = graph.neighbour_places(place);
    let mut index = 0usize;
    for neighbour in neighbours {
        take_mark(rows, marks, neighbour.asn, place_at(places, index));
        index = index.wrapping_add(1);
    }
}

impl<'a> Settled<'a> {
    /// No mark. If there is not enough memory for marks, no AS is ever marked.
    pub(crate) fn none(alloc: Global, graph: &'a Graph) -> Settled<'a>
        ensures { (place : ℕ) → slice_index_or result.marks.items place false ≡ false }
    {
        let rows = graph.rows();
        Settled {
            rows,
            marks: no_marks(alloc, rows.len()),
        }
    }

    /// Whether the AS is marked, whose row is sought at a place.
    pub(crate) fn has(&self, asn: Asn, place: usize) -> bool
        ensures { IsTrue result → IsMarked self.now.rows.now self.now.marks.items place asn }
    {
        if !stands(self.rows, self.marks.as_slice(), asn, place) {
            return false;
        }
        self.marks[place]
    }

    /// Marks the AS that took its turn, and takes the marks of its neighbours if what it holds has changed. Its row is
    /// sought at a place.
    pub(crate) fn renew(&mut self, graph: &Graph, asn: Asn, place: usize, changed: bool)
        ensures rows { self.new.rows.now ≡ self.old.rows.now }
        ensures marks { IsRenewed (relation graph.now) asn changed self.old.rows.now
            self.old.marks.items self.new.marks.items }
    {
        if !changed {
            put_mark(self.rows, &mut self.marks, asn, place);
            return;
        }
        take_marks_near(graph, self.rows, &mut self.marks, asn, place);
        put_mark(self.rows, &mut self.marks, asn, place);
    }
}
