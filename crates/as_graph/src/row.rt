//! The neighbours of one AS.
ghost use Rattle.std.specs.Prelude.{◌≡◌, ◌≢◌, ◌<◌, ◌+◌, ◌++◌, ◌∷◌, [], ◌||◌, nat_lt, length, true, false, None, Some, IsOk, IfOk, IfErr, OnOk};
ghost use Rattle.as_graph.specs.Rows.{IsRising};

use crate::neighbour::Neighbour;
use net_names::{Asn, Rel};
use smallvec::SmallVec;
use std::alloc::{AllocError, Global};

/// The neighbours of an AS in rising order of their numbers, and whether the AS is marked.
#[derive(Drop)]
pub struct Row {
    marked: bool,
    neighbours: SmallVec<Neighbour, 2>,
    ghost rising: { IsRising neighbours.items },
}

impl Row {
    ghost use Rattle.as_graph.specs.Rows.{rel_in, IsAt, IsGapFor, AreBelow, SetsRel};
    ghost use Rattle.as_graph.specs.Writes.{has_room};

    /// The row of an AS without neighbours and without a mark.
    pub fn new(alloc: Global) -> Row
        ensures none { result.neighbours.items ≡ [] }
        ensures unmarked { result.marked ≡ false }
    {
        Row {
            marked: false,
            neighbours: SmallVec::new(alloc),
        }
    }

    /// The row of an AS without a mark and with room for so many neighbours, of which there is none
    /// yet.
    pub fn with_room(alloc: Global, neighbours: usize) -> Result<Row, AllocError>
        ensures none { IfOk result (λ r. r.neighbours.items ≡ []) }
        ensures unmarked { IfOk result (λ r. r.marked ≡ false) }
    {
        Ok(Row {
            marked: false,
            neighbours: SmallVec::with_capacity(alloc, neighbours)?,
        })
    }

    /// The neighbours.
    pub fn as_slice(&self) -> &[Neighbour]
        ensures value { result.now ≡ self.now.neighbours.items }
        ensures rising { IsRising self.now.neighbours.items }
    {
        self.neighbours.as_slice()
    }

    /// Whether there is a reason to count the AS: its mark, or a neighbour.
    pub fn is_needed(&self) -> bool
        ensures { result ≡ (self.now.marked || nat_lt 0 (length self.now.neighbours.items)) }
    {
        self.marked || !self.neighbours.is_empty()
    }

    /// Marks the AS, or takes its mark away.
    pub fn set_mark(&mut self, mark: bool)
        ensures marked { self.new.marked ≡ mark }
        ensures same { self.new.neighbours ≡ self.old.neighbours }
    {
        self.marked = mark;
    }

    // Where the number is, or where it would go.
    fn search(&self, asn: Asn) -> Result<usize, usize>
        ensures found { IfOk result (IsAt self.now.neighbours.items asn) }
        ensures absent { IfErr result (IsGapFor self.now.neighbours.items asn) }
    {
        self.neighbours
            .as_slice()
            .binary_search_by_key(&asn, |n| n.asn)
    }

    /// What a neighbour is; nothing where the number is no neighbour's.
    pub fn rel(&self, asn: Asn) -> Option<Rel>
        ensures { result ≡ rel_in self.now.neighbours.items asn }
    {
        match self.search(asn) {
            Ok(at) => {
                let all = self.neighbours.as_slice();
                Some(all[at].rel)
            }
            Err(_) => None,
        }
    }

    /// Puts a neighbour behind the others.
    pub fn push(&mut self, asn: Asn, rel: Rel) -> Result<(), AllocError>
        requires { AreBelow self.old.neighbours.items asn }
        ensures ok { OnOk result
            (self.new.neighbours.items ≡ self.old.neighbours.items ++ record { asn = asn; rel = rel } ∷ []) }
        ensures marked { self.new.marked ≡ self.old.marked }
    {
        Ok(self.neighbours.push(Neighbour { asn, rel })?)
    }

    /// Makes room for one more neighbour.
    pub fn reserve(&mut self) -> Result<(), AllocError>
        ensures room { OnOk result (has_room self.new ≡ true) }
        ensures succeeds { has_room self.old ≡ true → IsOk result }
        ensures kept { has_room self.old ≡ true → has_room self.new ≡ true }
        ensures same { self.new.neighbours.items ≡ self.old.neighbours.items }
        ensures marked { self.new.marked ≡ self.old.marked }
    {
        self.neighbours.reserve(1)
    }

    /// Sets what a neighbour is, in the room that there is. Returns the place of a new neighbour.
    pub fn put(&mut self, asn: Asn, rel: Rel) -> Option<usize>
        requires { rel_in self.old.neighbours.items asn ≡ None → has_room self.old ≡ true }
        ensures sets { SetsRel self.old.neighbours.items self.new.neighbours.items asn (Some rel) }
        ensures marked { self.new.marked ≡ self.old.marked }
    {
        match self.search(asn) {
            Ok(at) => {
                let all = self.neighbours.as_mut_slice();
                all[at] = Neighbour { asn, rel };
                None
            }
            Err(at) => match self.neighbours.insert(at, Neighbour { asn, rel }) {
                Ok(()) => Some(at),
                Err(_) => unreachable!(),
            },
        }
    }

    /// Takes a neighbour away. Returns the place where it was.
    pub fn take(&mut self, asn: Asn) -> Option<usize>
        ensures sets { SetsRel self.old.neighbours.items self.new.neighbours.items asn None }
        ensures kept { has_room self.old ≡ true → has_room self.new ≡ true }
        ensures freed { rel_in self.old.neighbours.items asn ≢ None → has_room self.new ≡ true }
        ensures marked { self.new.marked ≡ self.old.marked }
    {
        match self.search(asn) {
            Ok(at) => {
                prove!(self.neighbours.len() <= self.neighbours.capacity());
                let _gone = self.neighbours.remove(at);
                Some(at)
            }
            Err(_) => None,
        }
    }
}
