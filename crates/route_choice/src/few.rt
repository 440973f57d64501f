//! How few entries are read and put.

ghost use Rattle.std.specs.Prelude.{◌≡◌, ◌≢◌, ◌⊎◌, ℕ, ◌+◌, ◌^◌, ◌<◌, ◌≤◌, [], ◌∷◌, ◌++◌, length, slice_get, Some, None, IsSome, IsOk, OnOk, nat_eq, unwrap_or, IsTrue, ◌↔◌};
ghost use Rattle.std.specs.Map.{keys_of, lookup};
ghost use Rattle.indexmap.specs.IndexMap.{get, keys, spare};
ghost use Rattle.route_choice.specs.Slots.{use_of, uses_in};
ghost use Rattle.route_choice.specs.Few.{few_entries, few_spare, room_for};

use crate::Held;
use crate::first::{Few, First};
use indexmap::IndexMap;
use net_names::{Asn, NoMemory};
use std::alloc::Global;

// What stands at an AS, by its hash.
#[inline(never)]
fn look_up(slots: &IndexMap<Asn, Option<Held>>, asn: Asn) -> Option<Option<Held>>
    ensures { result ≡ get nat_eq slots.now asn }
{
    slots.get(&asn).copied()
}

// Puts an entry, or none, at an AS. Returns what stood there.
fn exchange_in(
    slots: &mut IndexMap<Asn, Option<Held>>,
    asn: Asn,
    entry: Option<Held>,
) -> Option<Held>
    requires { IsSome (get nat_eq slots.old asn) ⊎ (0 < spare slots.old) }
    ensures old { result ≡ unwrap_or (get nat_eq slots.old asn) None }
    ensures this { get nat_eq slots.new asn ≡ Some entry }
    ensures others { (a : ℕ) → a ≢ asn → get nat_eq slots.new a ≡ get nat_eq slots.old a }
    ensures uses { (k : ℕ) → uses_in slots.new.entries k + use_of k result
        ≡ uses_in slots.old.entries k + use_of k entry }
    ensures spare { spare slots.old ≤ spare slots.new + 1 }
    ensures kept { IsSome (get nat_eq slots.old asn) → keys slots.new ≡ keys slots.old }
    ensures kept_spare { IsSome (get nat_eq slots.old asn) → spare slots.new ≡ spare slots.old }
    ensures new_place { get nat_eq slots.old asn ≡ None → keys slots.new ≡ keys slots.old ++ asn ∷ [] }
{
    match slots.get_mut(&asn) {
        Some(place) => {
            let old = *place;
            *place = entry;
            old
        }
        None => {
            add(slots, asn, entry);
            None
        }
    }
}

// Puts an entry, or none, at an AS at which there is nothing yet.
fn add(slots: &mut IndexMap<Asn, Option<Held>>, asn: Asn, entry: Option<Held>)
    requires absent { get nat_eq slots.old asn ≡ None }
    requires room { 0 < spare slots.old }
    ensures this { get nat_eq slots.new asn ≡ Some entry }
    ensures others { (a : ℕ) → a ≢ asn → get nat_eq slots.new a ≡ get nat_eq slots.old a }
    ensures uses { (k : ℕ) → uses_in slots.new.entries k ≡ uses_in slots.old.entries k + use_of k entry }
    ensures spare { spare slots.old ≤ spare slots.new + 1 }
    ensures new_place { keys slots.new ≡ keys slots.old ++ asn ∷ [] }
{
    match slots.insert(asn, entry) {
        Ok(_) => {}
        Err(_) => unreachable!(),
    }
}

// How many of so many more ASes the hash table needs room for.
fn left_for(first: &Option<First>, n: usize) -> usize
    ensures enough { n ≤ result + room_for first.now }
    ensures least { (m : ℕ) → n ≤ m + room_for first.now → result ≤ m }
{
    match first {
        Some(_) => n,
        None => n.saturating_sub(1),
    }
}

impl Few {
    /// No AS.
    pub fn new(alloc: Global) -> Few
        ensures { few_entries result ≡ [] }
    {
        Few {
            first: None,
            others: IndexMap::new(alloc),
        }
    }

    /// How many ASes there are.
    pub fn len(&self) -> usize
        ensures len { result ≡ length (few_entries self.now) }
        ensures small { result ≤ 2 ^ 63 }
    {
        match self.first {
            Some(_) => self.others.len() + 1,
            None => 0,
        }
    }

    /// Makes room for `n` more ASes. The entries stay, also after a refusal.
    pub fn room(&mut self, n: usize) -> Result<(), NoMemory>
        ensures room { OnOk result (n ≤ few_spare self.new) }
        ensures more { few_spare self.old ≤ few_spare self.new }
        ensures succeeds { n ≤ few_spare self.old → IsOk result }
        ensures same { few_entries self.new ≡ few_entries self.old }
    {
        let left = left_for(&self.first, n);
        self.others.reserve(left)?;
        Ok(())
    }

    /// Whether there is room for `n` more ASes.
    #[inline(always)]
    pub fn has_room(&self, n: usize) -> bool
        ensures { IsTrue result ↔ n ≤ few_spare self.now }
    {
        left_for(&self.first, n) <= self.others.capacity() - self.others.len()
    }

    /// The AS at an index, and what stands at it.
    #[inline(always)]
    pub fn at(&self, index: usize) -> Option<(Asn, Option<Held>)>
        ensures { result ≡ slice_get (few_entries self.now) index }
    {
        let Some(first) = self.first else {
            return None;
        };
        if index == 0 {
            return Some((first.asn, first.entry));
        }
        match self.others.get_index(index - 1) {
            Some((asn, entry)) => Some((*asn, *entry)),
            None => None,
        }
    }

    /// What stands at an AS.
    #[inline(always)]
    pub fn get(&self, asn: Asn) -> Option<Option<Held>>
        ensures { result ≡ lookup (nat_eq asn) (few_entries self.now) }
    {
        let Some(first) = self.first else {
            return None;
        };
        if first.asn == asn {
            return Some(first.entry);
        }
        look_up(&self.others, asn)
    }

    /// Where the AS that came first may stand in a table. It is a hint.
    pub fn near(&self) -> usize {
        match self.first {
            Some(first) => first.near,
            None => 0,
        }
    }

    /// Puts an entry, or none, at an AS, which may stand at that place in a table. Returns what stood
    /// there.
    #[inline(always)]
    pub fn put_in(&mut self, asn: Asn, near: usize, entry: Option<Held>) -> Option<Held>
        requires { IsSome (lookup (nat_eq asn) (few_entries self.old)) ⊎ (0 < few_spare self.old) }
        ensures old { result ≡ unwrap_or (lookup (nat_eq asn) (few_entries self.old)) None }
        ensures this { lookup (nat_eq asn) (few_entries self.new) ≡ Some entry }
        ensures others { (a : ℕ) → a ≢ asn →
            lookup (nat_eq a) (few_entries self.new) ≡ lookup (nat_eq a) (few_entries self.old) }
        ensures uses { (k : ℕ) → uses_in (few_entries self.new) k + use_of k result
            ≡ uses_in (few_entries self.old) k + use_of k entry }
        ensures spare { few_spare self.old ≤ few_spare self.new + 1 }
        ensures kept { IsSome (lookup (nat_eq asn) (few_entries self.old)) →
            keys_of (few_entries self.new) ≡ keys_of (few_entries self.old) }
        ensures kept_spare { IsSome (lookup (nat_eq asn) (few_entries self.old)) →
            few_spare self.new ≡ few_spare self.old }
        ensures new_place { lookup (nat_eq asn) (few_entries self.old) ≡ None →
            keys_of (few_entries self.new) ≡ keys_of (few_entries self.old) ++ asn ∷ [] }
    {
        let Some(first) = self.first else {
            self.first = Some(First { asn, entry, near });
            return None;
        };
        if first.asn == asn {
            self.first = Some(First { asn, entry, near });
            return first.entry;
        }
        exchange_in(&mut self.others, asn, entry)
    }
}
