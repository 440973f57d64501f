//! The neighbours at which an AS looks in a step.

ghost use Rattle.std.specs.Prelude.{◌≡◌, [], ◌∷◌, ◌++◌, true};

use as_graph::Neighbour;
use std::alloc::Global;

/// Neighbours of an AS, and where each was last found in the graph, which is a hint.
#[derive(Drop)]
pub struct Looks {
    /// The neighbours.
    pub neighbours: Vec<Neighbour>,
    /// The places.
    pub places: Vec<u32>,
}

impl Looks {
    /// No neighbour.
    pub fn none(alloc: Global) -> Looks {
        Looks {
            neighbours: Vec::new(alloc),
            places: Vec::new(alloc),
        }
    }

    /// Takes all neighbours out.
    pub fn clear(&mut self)
        ensures { self.new.neighbours.items ≡ [] }
    {
        self.neighbours.clear();
        self.places.clear();
    }

    /// Puts a neighbour behind the others. The answer is whether there was enough memory.
    pub fn push(&mut self, neighbour: Neighbour, place: u32) -> bool
        ensures { result ≡ true → self.new.neighbours.items ≡ self.old.neighbours.items ++ neighbour ∷ [] }
    {
        self.neighbours.push(neighbour).is_ok() && self.places.push(place).is_ok()
    }

    /// Puts neighbours, with a place for each, behind the others. The answer is whether there was enough
    /// memory.
    pub fn put_all(&mut self, neighbours: &[Neighbour], places: &[u32]) -> bool
        ensures { result ≡ true → self.new.neighbours.items ≡ self.old.neighbours.items ++ neighbours.now }
    {
        self.neighbours.extend_from_slice(neighbours).is_ok()
            && self.places.extend_from_slice(places).is_ok()
    }
}
