//! The places.
ghost use Rattle.std.specs.Prelude.{◌≡◌, ◌+◌, ◌<◌, ◌≤◌, ◌++◌, ◌∷◌, [], false, length, nat_eq, slice_get, IfNone, IfOk, IfSome, IsOk, OnOk};
ghost use Rattle.std.specs.List.{IsDistinct};
ghost use Rattle.net_names.specs.Prelude.{occurs};
ghost use Rattle.as_places.specs.Places.{place_of};

use crate::gathering::{gather, place_in, rising_front};
use indexmap::IndexSet;
use net_names::{Asn, NoMemory};
use std::alloc::Global;
use std::marker::Model;
use std::rc::Rc;

/// Distinct AS numbers, each at a place, which is its index in a list. Contracts see the list, and
/// for how many more numbers there is room without memory.
///
/// The list begins with a part in rising order, which is searched by halves. Only the numbers behind
/// it stand in a hash table.
#[derive(Drop)]
pub struct AsPlaces {
    numbers: Vec<Asn>,
    front: usize,
    behind: IndexSet<Asn>,
}

impl Model for AsPlaces {
    ghost use Rattle.std.specs.Prelude.{◌-◌, min};
    ghost use Rattle.indexmap.specs.IndexSet.{spare as spare_behind};
    ghost use Rattle.as_places.specs.Places.{PlacedAses, placed_ases_code, AreKept};

    ghost Value = { PlacedAses };

    ghost coded = { placed_ases_code };

    ghost view = { λ p. record { ases = p.numbers.items; spare = min (p.numbers.cap - p.numbers.len) (spare_behind p.behind) } };

    ghost invariant = { λ p. AreKept p.numbers.items p.front p.behind.keys };
}

impl AsPlaces {
    /// No number. Takes no memory.
    pub fn new(alloc: Global) -> AsPlaces
        ensures { result.ases ≡ [] }
    {
        AsPlaces {
            numbers: Vec::new(alloc),
            front: 0,
            behind: IndexSet::new(alloc),
        }
    }

    /// These numbers, each at its index.
    pub fn of(alloc: Global, ases: &[Asn]) -> Result<AsPlaces, NoMemory>
        requires { IsDistinct nat_eq ases.now }
        ensures list { IfOk result (λ p. p.ases ≡ ases.now) }
    {
        let front = rising_front(ases);
        let behind = gather(alloc, &ases[front..])?;
        let numbers = Vec::from_slice(alloc, ases)?;
        Ok(AsPlaces {
            numbers,
            front,
            behind,
        })
    }

    /// These numbers, each at its index, in a list that tables can share.
    pub fn shared(alloc: Global, ases: &[Asn]) -> Result<Rc<AsPlaces>, NoMemory>
        requires { IsDistinct nat_eq ases.now }
        ensures { IfOk result (λ r. r.value.ases ≡ ases.now) }
    {
        let list = Rc::new(alloc, AsPlaces::of(alloc, ases)?)?;
        Ok(list)
    }

    /// The number at a place; `None` exactly past the last one.
    pub fn at(&self, place: usize) -> Option<Asn>
        ensures { result ≡ slice_get self.now.ases place }
    {
        self.numbers.get(place).copied()
    }

    /// The numbers by place.
    pub fn as_slice(&self) -> &[Asn]
        ensures list { result.now ≡ self.now.ases }
        ensures apart { IsDistinct nat_eq self.now.ases }
    {
        self.numbers.as_slice()
    }

    /// How many numbers there are.
    pub fn len(&self) -> usize
        ensures { result ≡ length self.now.ases }
    {
        self.numbers.len()
    }

    /// The place of a number; `None` exactly where it has none.
    pub fn place(&self, asn: Asn) -> Option<usize>
        ensures value { result ≡ place_of self.now.ases asn }
        ensures found { IfSome result (λ i. slice_get self.now.ases i ≡ Some asn) }
        ensures none { IfNone result (occurs asn self.now.ases ≡ false) }
    {
        match place_in(&self.numbers[..self.front], asn) {
            Some(place) => Some(place),
            None if self.front == self.numbers.len() => None,
            None => match self.behind.get_index_of(&asn) {
                Some(index) => Some(self.front + index),
                None => None,
            },
        }
    }

    /// The place of a number, as `place` gives it, sought first at a place, which is a hint.
    #[inline(always)]
    pub fn place_near(&self, asn: Asn, hint: usize) -> Option<usize>
        ensures value { result ≡ place_of self.now.ases asn }
        ensures found { IfSome result (λ i. slice_get self.now.ases i ≡ Some asn) }
        ensures none { IfNone result (occurs asn self.now.ases ≡ false) }
    {
        match self.numbers.get(hint) {
            Some(found) if *found == asn => Some(hint),
            _ => self.place(asn),
        }
    }

    /// Makes room for `n` more numbers. The list stays, also after a refusal.
    pub fn room(&mut self, n: usize) -> Result<(), NoMemory>
        ensures room { OnOk result (n ≤ self.new.spare) }
        ensures more { self.old.spare ≤ self.new.spare }
        ensures succeeds { n ≤ self.old.spare → IsOk result }
        ensures same { self.new.ases ≡ self.old.ases }
    {
        self.numbers.reserve(n)?;
        self.behind.reserve(n)?;
        Ok(())
    }

    /// Puts a number behind the others, and returns its place. Takes no memory.
    pub fn add(&mut self, asn: Asn) -> usize
        requires absent { occurs asn self.old.ases ≡ false }
        requires room { 0 < self.old.spare }
        ensures place { result ≡ length self.old.ases }
        ensures list { self.new.ases ≡ self.old.ases ++ asn ∷ [] }
        ensures spare { self.old.spare ≤ self.new.spare + 1 }
    {
        let place = self.numbers.len();
        match self.numbers.push(asn) {
            Ok(()) => {}
            Err(_) => unreachable!(),
        }
        match self.behind.insert(asn) {
            Ok(_) => {}
            Err(_) => unreachable!(),
        }
        place
    }
}
