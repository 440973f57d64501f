//! Who told whom that it holds something.

ghost use Rattle.std.specs.Prelude.{◌≡◌, ◌≢◌, ℕ, ◌<◌, true, false, length, Option, Some, None, IfOk, All, nat_eq, is_some};
ghost use Rattle.std.proofs.Props.{props};
ghost use Rattle.std.specs.List.{IsDistinct};
ghost use Rattle.net_names.specs.Prelude.{occurs, converse};
ghost use Rattle.net_names.specs.declared.routes.Rel.{Rel as ARel};
ghost use Rattle.net_names.specs.declared.routes.Rel.TheVariants.{Customer};
ghost use Rattle.as_graph.specs.Prelude.{relation, asns};
ghost use Rattle.route_choice.specs.Prelude.{joined};
ghost use Rattle.three_pass.specs.Notes.{befores, tos, IsChained};

use crate::course::stands_at;
use crate::looks::Looks;
use as_graph::{Graph, Neighbour, links_are_sound};
use net_names::{Asn, NoMemory, Rel, place_at};
use route_choice::{Overlay, Table};
use std::alloc::Global;

/// One AS told another that it holds something.
#[derive(Clone, Copy)]
pub struct Note {
    /// Who was told.
    to: Asn,
    /// Who told it, and what it is to the other.
    from: Neighbour,
    /// Where who told it was last found, which is a hint.
    place: u32,
    /// How many notes there are up to the one before to the same AS, 0 where there is none.
    before: u32,
}

/// Which ASes were told by which of their neighbours that these hold something. Where not all notes could
/// be kept, each is as if it were told by all.
#[derive(Drop)]
pub struct Told<'a> {
    order: &'a [Asn],
    // for each row of the graph the place of its AS in the order, which is a hint
    places: &'a [u32],
    // for each place, how many notes there are up to the last one to its AS, 0 where there is none
    last: Vec<u32>,
    notes: Vec<Note>,
    all: bool,
    ghost apart: { IsDistinct nat_eq order.now } by { Prim.hlevel props },
    ghost len: { length last.items ≡ length order.now },
    ghost chained: { all ≡ false → IsChained order.now last.items (tos notes.items) (befores notes.items) },
}

impl<'a> Told<'a> {
    ghost use Rattle.three_pass.specs.Told.{IsTold, AreTrue};

    /// Nobody is told anything. The ASes stand in this order, and for each row of the graph this is the
    /// place of its AS.
    pub fn none(alloc: Global, order: &'a [Asn], places: &'a [u32]) -> Result<Told<'a>, NoMemory>
        requires { IsDistinct nat_eq order.now }
        ensures none { IfOk result (λ t. (a b : ℕ) → ¬ IsTold t a b) }
        ensures sound { IfOk result (λ t. (w : ℕ → ℕ → Option ARel) → AreTrue w t) }
    {
        let last = Vec::from_elem(alloc, 0u32, order.len())?;
        Ok(Told {
            order,
            places,
            last,
            notes: Vec::new(alloc),
            all: false,
        })
    }

    /// Whether an AS, which is sought at a place, was told nothing for certain.
    pub fn is_untold(&self, asn: Asn, place: usize) -> bool
        ensures { result ≡ true → (b : ℕ) → ¬ IsTold self.now asn b }
    {
        if self.all {
            return false;
        }
        if !stands_at(self.order, place, asn) {
            return false;
        }
        self.last[place] == 0
    }

    // Puts a note, if the AS stands at the first place and there is enough memory.
    fn put(&mut self, to: Asn, at: usize, from: Neighbour, place: u32) -> bool
        requires { self.old.all ≡ false }
        ensures this { result ≡ true → IsTold self.new to from.asn }
        ensures others { (a b : ℕ) → IsTold self.old a b → IsTold self.new a b }
        ensures sound { (w : ℕ → ℕ → Option ARel) → w to from.asn ≡ Some from.rel → AreTrue w self.old →
            AreTrue w self.new }
    {
        if !stands_at(self.order, at, to) {
            return false;
        }
        let before = self.last[at];
        let Ok(count) = u32::try_from(self.notes.len() + 1) else {
            return false;
        };
        match self.notes.push(Note {
            to,
            from,
            place,
            before,
        }) {
            Ok(()) => {
                self.last[at] = count;
                true
            }
            Err(_) => false,
        }
    }

    // Tells an AS, which is sought at the first place, that a neighbour of it holds something.
    fn tell(&mut self, to: Asn, at: usize, from: Neighbour, place: u32)
        ensures this { IsTold self.new to from.asn }
        ensures others { (a b : ℕ) → IsTold self.old a b → IsTold self.new a b }
        ensures sound { (w : ℕ → ℕ → Option ARel) → w to from.asn ≡ Some from.rel → AreTrue w self.old →
            AreTrue w self.new }
    {
        if self.all {
            return;
        }
        if !self.put(to, at, from, place) {
            self.all = true;
        }
    }

    // Tells a neighbour that is a peer or a provider.
    fn tell_if_above(&mut self, neighbour: &Neighbour, at: usize, asn: Asn, place: u32)
        ensures this { neighbour.now.rel ≢ Customer → IsTold self.new neighbour.now.asn asn }
        ensures others { (a b : ℕ) → IsTold self.old a b → IsTold self.new a b }
        ensures sound { (w : ℕ → ℕ → Option ARel) → w neighbour.now.asn asn ≡ Some (converse neighbour.now.rel) →
            AreTrue w self.old → AreTrue w self.new }
    {
        if neighbour.rel != Rel::Customer {
            let from = Neighbour {
                asn,
                rel: neighbour.rel.converse(),
            };
            self.tell(neighbour.asn, at, from, place);
        }
    }

    // Tells the peers and the providers of an AS, which was last found at a row and at a place.
    fn tell_around(&mut self, graph: &Graph, asn: Asn, row: usize, place: usize)
        ensures around { (n : ℕ) (r : ARel) → relation graph.now asn n ≡ Some r → r ≢ Customer → IsTold self.new n asn }
        ensures others { (a b : ℕ) → IsTold self.old a b → IsTold self.new a b }
        ensures sound { AreTrue (relation graph.now) self.old → AreTrue (relation graph.now) self.new }
    {
        links_are_sound();
        let neighbours = graph.neighbours_near(asn, row);
        let rows = graph.neighbour_places(row);
        let here = u32::try_from(place).unwrap_or(0);
        for (index, neighbour) in neighbours.iter().enumerate() {
            let at = place_at(self.places, place_at(rows, index));
            self.tell_if_above(neighbour, at, asn, here);
        }
    }

    /// Has an AS that holds something, and was last found at a row and at a place, tell its peers and its
    /// providers.
    pub fn add_holder(
        &mut self,
        graph: &Graph,
        asn: Asn,
        row: usize,
        place: usize,
        table: &Table,
        overlay: &Overlay,
    )
        ensures around { joined table.now overlay.now asn ≢ None → (n : ℕ) (r : ARel) →
            relation graph.now asn n ≡ Some r → r ≢ Customer → IsTold self.new n asn }
        ensures others { (a b : ℕ) → IsTold self.old a b → IsTold self.new a b }
        ensures sound { AreTrue (relation graph.now) self.old → AreTrue (relation graph.now) self.new }
    {
        if holds(table, overlay, asn, place) {
            self.tell_around(graph, asn, row, place);
        }
    }

    /// Puts those that told an AS, which is sought at a place, behind a list. The answer is whether all of
    /// them are there.
    pub fn put_tellers(&self, asn: Asn, at: usize, looks: &mut Looks) -> bool
        ensures told { result ≡ true → (b : ℕ) → IsTold self.now asn b →
            occurs b (asns looks.new.neighbours.items) ≡ true }
        ensures others { result ≡ true → (b : ℕ) → occurs b (asns looks.old.neighbours.items) ≡ true →
            occurs b (asns looks.new.neighbours.items) ≡ true }
        ensures each { result ≡ true → (w : ℕ → ℕ → Option ARel) → AreTrue w self.now →
            All (λ x. w asn x.asn ≡ Some x.rel) looks.old.neighbours.items →
            All (λ x. w asn x.asn ≡ Some x.rel) looks.new.neighbours.items }
    {
        if self.all {
            return false;
        }
        if !stands_at(self.order, at, asn) {
            return false;
        }
        let mut count = self.last[at];
        'notes: while count > 0 {
            let place = count as usize - 1;
            let note = self.notes[place];
            if !looks.push(note.from, note.place) {
                return false;
            }
            count = note.before;
        }
        true
    }
}

/// Whether an AS, whose entry was last found at a place, holds something.
#[inline(always)]
pub fn holds(table: &Table, overlay: &Overlay, asn: Asn, place: usize) -> bool
    ensures { result ≡ is_some (joined table.now overlay.now asn) }
{
    match overlay.get_near(asn, place) {
        Some(change) => change.is_some(),
        None => table.get_near(asn, place).is_some(),
    }
}
