//! Changes of a table.

ghost use Rattle.std.specs.Prelude.{◌≡◌, ◌≢◌, ℕ, ◌+◌, ◌<◌, ◌≤◌, [], ◌∷◌, ◌++◌, length, slice_get, Some, None, IsSome, IsOk, OnOk, is_some, nat_eq, unwrap_or, IfOk, if◌then◌else◌};
ghost use Rattle.std.specs.List.{IsDistinct};
ghost use Rattle.net_names.specs.Prelude.{occurs};

use crate::slots::{Slots, let_all_go};
use crate::{Held, Table};
use as_places::AsPlaces;
use net_names::{Asn, NoMemory};
use path_pool::PathPool;
use std::alloc::Global;
use std::rc::Rc;

/// Changes of a table: at some ASes a new entry, or none. It owns one outside hold for each of its
/// entries.
#[derive(Drop)]
pub struct Overlay {
    pub(crate) changes: Slots,
}

impl Overlay {
    ghost use Rattle.route_choice.specs.Tables.{change_at, places_of, overlay_spare, overlay_uses, HasPlace};
    ghost use Rattle.route_choice.specs.Slots.{use_of};
    ghost use Rattle.route_choice.specs.Holds.{GivesBack};
    ghost use Rattle.path_pool.specs.Pool.{holds_of};

    /// No change.
    pub fn new(alloc: Global) -> Overlay
        ensures none { (a : ℕ) → change_at result a ≡ None }
        ensures places { places_of result ≡ [] }
        ensures uses { (k : ℕ) → overlay_uses result k ≡ 0 }
    {
        Overlay {
            changes: Slots::new(alloc),
        }
    }

    /// No entry at each of these ASes, in this order, and room for `n` more ASes. The list is shared.
    pub fn blank(alloc: Global, ases: &Rc<AsPlaces>, n: usize) -> Result<Overlay, NoMemory>
        ensures changes { IfOk result (λ o. (a : ℕ) →
            change_at o a ≡ (if occurs a ases.now.value.ases then Some None else None)) }
        ensures places { IfOk result (λ o. places_of o ≡ ases.now.value.ases) }
        ensures uses { IfOk result (λ o. (k : ℕ) → overlay_uses o k ≡ 0) }
        ensures room { IfOk result (λ o. n ≤ overlay_spare o) }
    {
        Ok(Overlay {
            changes: Slots::blank(alloc, ases, n)?,
        })
    }

    /// Makes room for `n` more ASes. The changes stay, also after a refusal.
    pub fn room(&mut self, n: usize) -> Result<(), NoMemory>
        ensures room { OnOk result (n ≤ overlay_spare self.new) }
        ensures more { overlay_spare self.old ≤ overlay_spare self.new }
        ensures succeeds { n ≤ overlay_spare self.old → IsOk result }
        ensures same { (a : ℕ) → change_at self.new a ≡ change_at self.old a }
        ensures places { places_of self.new ≡ places_of self.old }
        ensures uses { (k : ℕ) → overlay_uses self.new k ≡ overlay_uses self.old k }
    {
        self.changes.room(n)
    }

    /// Makes room for `n` more ASes, as `room` does it, for changes of this table.
    pub fn room_over(&mut self, table: &Table, n: usize) -> Result<(), NoMemory>
        ensures room { OnOk result (n ≤ overlay_spare self.new) }
        ensures more { overlay_spare self.old ≤ overlay_spare self.new }
        ensures succeeds { n ≤ overlay_spare self.old → IsOk result }
        ensures same { (a : ℕ) → change_at self.new a ≡ change_at self.old a }
        ensures places { places_of self.new ≡ places_of self.old }
        ensures uses { (k : ℕ) → overlay_uses self.new k ≡ overlay_uses self.old k }
    {
        self.changes.room_over(table.slots(), n)
    }

    /// The change at an AS, if there is one: a new entry, or none.
    pub fn get(&self, asn: Asn) -> Option<Option<Held>>
        ensures { result ≡ change_at self.now asn }
    {
        self.get_near(asn, 0)
    }

    /// The change at an AS, as `get` gives it, sought first at a place, which is a hint.
    #[inline(always)]
    pub fn get_near(&self, asn: Asn, place: usize) -> Option<Option<Held>>
        ensures { result ≡ change_at self.now asn }
    {
        self.slot_near(asn, place)
    }

    // The change at an AS, sought first at a place.
    #[inline(always)]
    pub(crate) fn slot_near(&self, asn: Asn, place: usize) -> Option<Option<Held>>
        ensures { result ≡ change_at self.now asn }
    {
        self.changes.get_near(asn, place)
    }

    /// Puts a change at an AS, in place of the one that it had. The caller gives the hold of the
    /// new entry to the overlay, and takes over that of the replaced one. Takes no memory: an AS
    /// that has no change yet takes up room for one.
    pub fn put(&mut self, asn: Asn, held: Option<Held>)
        requires { HasPlace self.old asn }
        ensures this { change_at self.new asn ≡ Some held }
        ensures others { (a : ℕ) → a ≢ asn → change_at self.new a ≡ change_at self.old a }
        ensures uses { (k : ℕ) → overlay_uses self.new k + use_of k (unwrap_or (change_at self.old asn) None)
            ≡ overlay_uses self.old k + use_of k held }
        ensures spare { overlay_spare self.old ≤ overlay_spare self.new + 1 }
        ensures kept { IsSome (change_at self.old asn) → places_of self.new ≡ places_of self.old }
        ensures new_place { change_at self.old asn ≡ None → places_of self.new ≡ places_of self.old ++ asn ∷ [] }
        ensures kept_spare { IsSome (change_at self.old asn) → overlay_spare self.new ≡ overlay_spare self.old }
    {
        let _ = self.exchange_near(asn, 0, held);
    }

    /// Puts a change at an AS, as `put` does it, sought first at a place, which is a hint. Returns the entry
    /// of the replaced one.
    #[inline(always)]
    pub fn exchange_near(&mut self, asn: Asn, place: usize, held: Option<Held>) -> Option<Held>
        requires { HasPlace self.old asn }
        ensures old { result ≡ unwrap_or (change_at self.old asn) None }
        ensures this { change_at self.new asn ≡ Some held }
        ensures others { (a : ℕ) → a ≢ asn → change_at self.new a ≡ change_at self.old a }
        ensures uses { (k : ℕ) → overlay_uses self.new k + use_of k result ≡ overlay_uses self.old k + use_of k held }
        ensures spare { overlay_spare self.old ≤ overlay_spare self.new + 1 }
        ensures kept { IsSome (change_at self.old asn) → places_of self.new ≡ places_of self.old }
        ensures new_place { change_at self.old asn ≡ None → places_of self.new ≡ places_of self.old ++ asn ∷ [] }
        ensures kept_spare { IsSome (change_at self.old asn) → overlay_spare self.new ≡ overlay_spare self.old }
    {
        self.changes.exchange_near(asn, place, held)
    }

    /// How many ASes have a change. Each stands at one place.
    pub fn len(&self) -> usize
        ensures count { result ≡ length (places_of self.now) }
        ensures listed { (a : ℕ) → occurs a (places_of self.now) ≡ is_some (change_at self.now a) }
        ensures apart { IsDistinct nat_eq (places_of self.now) }
    {
        self.changes.len()
    }

    /// The AS at a place, in the order in which the ASes were first put.
    pub fn at(&self, place: usize) -> Option<Asn>
        ensures { result ≡ slice_get (places_of self.now) place }
    {
        match self.changes.at(place) {
            Some((asn, _)) => Some(asn),
            None => None,
        }
    }

    /// Gives back the holds of all entries. Each cell that stays live keeps its path. Takes no
    /// memory.
    pub fn undo(self, pool: &mut PathPool)
        requires { (k : ℕ) → overlay_uses self k ≤ holds_of pool.old k }
        ensures holds { (k : ℕ) → holds_of pool.new k + overlay_uses self k ≡ holds_of pool.old k }
        ensures back { GivesBack pool.old pool.new }
    {
        let_all_go(&self.changes, pool);
    }
}
