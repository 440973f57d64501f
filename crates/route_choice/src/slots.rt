//! Entries by AS, and the holds of their paths.

ghost use Rattle.std.specs.Prelude.{◌≡◌, ◌≢◌, ◌⊎◌, ℕ, ◌+◌, ◌<◌, ◌≤◌, [], ◌∷◌, ◌++◌, true, false, length, slice_get, Some, None, IsSome, IsOk, IfOk, IfSome, OnOk, nat_eq, unwrap_or};
ghost use Rattle.std.specs.List.{IsDistinct};
ghost use Rattle.net_names.specs.Prelude.{occurs};
ghost use Rattle.as_places.specs.Places.{place_of};
ghost use Rattle.path_pool.specs.Pool.{holds_of};
ghost use Rattle.route_choice.specs.Slots.{slot_at, entry_at, entries_at, keys, missing_count, over, use_of, uses_in, uses_of, IsBlank};
ghost use Rattle.route_choice.specs.Holds.{GivesBack};
ghost use Rattle.route_choice.specs.Rows.{asns_of, entries_of, entry_in, placed_in};
ghost use Rattle.std.specs.Rc.{rc_value};

use crate::Held;
use crate::beside::Beside;
use crate::row::{Row, rows_of};
use crate::slot::Slot;
use as_places::AsPlaces;
use net_names::{Asn, NoMemory, place_at};
use path_pool::PathPool;
use std::alloc::Global;
use std::marker::Model;
use std::rc::Rc;

/// At some ASes an entry, or none. Contracts see the pairs in their order, and for how many more ASes
/// there is room.
///
/// ASes that were there from the start have places, and each place a row. A row has its AS too, so that
/// a look at a hinted place mostly reads the row alone. The list of the places can be shared with others.
/// ASes that came later stand beside.
#[derive(Drop)]
pub(crate) struct Slots {
    ases: Option<Rc<AsPlaces>>,
    rows: Vec<Row>,
    beside: Beside,
}

impl Model for Slots {
    ghost use Rattle.std.specs.Prelude.{◌++◌};
    ghost use Rattle.route_choice.specs.Slots.{Slots as SlotList};

    ghost Value = { SlotList };

    ghost use Rattle.route_choice.specs.Beside.{beside_entries, beside_spare};
    ghost use Rattle.std.specs.Rc.{rc_value};
    ghost use Rattle.route_choice.specs.Rows.{entries_of, placed_in, AreByPlace};

    ghost view = { λ s. record { entries = entries_of s.rows.items ++ beside_entries s.beside; spare = beside_spare s.beside } };

    ghost invariant = { λ s. AreByPlace (placed_in rc_value s.ases) s.rows.items (beside_entries s.beside) };
}

// The place of an AS in a list, by its hash.
#[inline(never)]
fn place_by_hash(places: &AsPlaces, asn: Asn) -> Option<usize>
    ensures { result ≡ place_of places.now.ases asn }
{
    places.place(asn)
}

// The place of an AS, if it has one.
#[inline(always)]
fn place_in(ases: &Option<Rc<AsPlaces>>, asn: Asn) -> Option<usize>
    ensures { result ≡ place_of (placed_in rc_value ases.now) asn }
{
    match ases {
        Some(places) => place_by_hash(places, asn),
        None => None,
    }
}

// The place of an AS, sought first at a row. Changes mostly have no places.
#[inline(always)]
fn place_among(ases: &Option<Rc<AsPlaces>>, rows: &[Row], asn: Asn, near: usize) -> Option<usize>
    requires places { asns_of rows.now ≡ placed_in rc_value ases.now }
    requires apart { IsDistinct nat_eq (asns_of rows.now) }
    ensures value { result ≡ place_of (asns_of rows.now) asn }
    ensures found { IfSome result (λ i. i < length rows.now) }
{
    match rows.get(near) {
        Some(row) if row.asn == asn => Some(near),
        _ => place_in(ases, asn),
    }
}

impl Slots {
    /// No AS.
    pub(crate) fn new(alloc: Global) -> Slots
        ensures { result.entries ≡ [] }
    {
        Slots {
            ases: None,
            rows: Vec::new(alloc),
            beside: Beside::new(alloc),
        }
    }

    /// No entry at each of these ASes, and room for so many more.
    pub(crate) fn blank(alloc: Global, ases: &Rc<AsPlaces>, more: usize) -> Result<Slots, NoMemory>
        ensures { IfOk result (IsBlank ases.now.value.ases more) }
    {
        let shared = ases.clone()?;
        let rows = rows_of(alloc, ases.as_slice())?;
        let beside = Beside::with_room(alloc, more)?;
        Ok(Slots {
            ases: Some(shared),
            rows,
            beside,
        })
    }

    /// These ASes with these rows.
    pub(crate) fn placed(alloc: Global, ases: Rc<AsPlaces>, rows: Vec<Row>) -> Slots
        requires { asns_of rows.items ≡ ases.value.ases }
        ensures { result.entries ≡ entries_of rows.items }
    {
        // The ASes are looked at for the clause that none stands twice.
        let _ases = ases.as_slice();
        Slots {
            ases: Some(ases),
            rows,
            beside: Beside::new(alloc),
        }
    }

    /// How many ASes there are.
    pub(crate) fn len(&self) -> usize
        ensures count { result ≡ length self.now.entries }
        ensures apart { IsDistinct nat_eq (keys self.now) }
    {
        self.rows.len() + self.beside.len()
    }

    /// Makes room for `n` more ASes. The entries stay, also after a refusal.
    pub(crate) fn room(&mut self, n: usize) -> Result<(), NoMemory>
        ensures room { OnOk result (n ≤ self.new.spare) }
        ensures more { self.old.spare ≤ self.new.spare }
        ensures succeeds { n ≤ self.old.spare → IsOk result }
        ensures same { self.new.entries ≡ self.old.entries }
    {
        self.beside.room(&self.ases, n)
    }

    /// Makes room for `n` more ASes, as `room` does it. They are mostly among those that have places in `below`.
    #[inline(always)]
    pub(crate) fn room_over(&mut self, below: &Slots, n: usize) -> Result<(), NoMemory>
        ensures room { OnOk result (n ≤ self.new.spare) }
        ensures more { self.old.spare ≤ self.new.spare }
        ensures succeeds { n ≤ self.old.spare → IsOk result }
        ensures same { self.new.entries ≡ self.old.entries }
    {
        self.beside.room(&below.ases, n)
    }

    /// The AS at a place, and what stands at it.
    #[inline(always)]
    pub(crate) fn at(&self, place: usize) -> Option<(Asn, Option<Held>)>
        ensures entry { result ≡ slice_get self.now.entries place }
        ensures value { IfSome result (λ e. slot_at self.now e.0 ≡ Some e.1) }
    {
        match self.rows.get(place) {
            Some(row) => Some((row.asn, row.slot.entry())),
            None => self.beside.at(place - self.rows.len()),
        }
    }

    /// What stands at an AS, sought first at a place.
    #[inline(always)]
    pub(crate) fn get_near(&self, asn: Asn, place: usize) -> Option<Option<Held>>
        ensures { result ≡ slot_at self.now asn }
    {
        match place_among(&self.ases, self.rows.as_slice(), asn, place) {
            Some(found) => Some(self.rows[found].slot.entry()),
            None => self.beside.get(asn, place),
        }
    }

    /// The slot of the row at a place, if it is that of the AS.
    #[inline(always)]
    pub(crate) fn row_near(&self, asn: Asn, place: usize) -> Option<Slot>
        ensures { IfSome result (λ s. slot_at self.now asn ≡ Some (entry_in s)) }
    {
        match self.rows.get(place) {
            Some(row) if row.asn == asn => Some(row.slot),
            _ => None,
        }
    }

    /// Puts an entry, or none, at an AS, sought first at a place. Returns what stood there.
    #[inline(always)]
    pub(crate) fn exchange_near(
        &mut self,
        asn: Asn,
        place: usize,
        entry: Option<Held>,
    ) -> Option<Held>
        requires { IsSome (slot_at self.old asn) ⊎ (0 < self.old.spare) }
        ensures old { result ≡ unwrap_or (slot_at self.old asn) None }
        ensures this { slot_at self.new asn ≡ Some entry }
        ensures others { (a : ℕ) → a ≢ asn → slot_at self.new a ≡ slot_at self.old a }
        ensures uses { (k : ℕ) → uses_of self.new k + use_of k result ≡ uses_of self.old k + use_of k entry }
        ensures spare { self.old.spare ≤ self.new.spare + 1 }
        ensures kept { IsSome (slot_at self.old asn) → keys self.new ≡ keys self.old }
        ensures kept_spare { IsSome (slot_at self.old asn) → self.new.spare ≡ self.old.spare }
        ensures new_place { slot_at self.old asn ≡ None → keys self.new ≡ keys self.old ++ asn ∷ [] }
    {
        match place_among(&self.ases, self.rows.as_slice(), asn, place) {
            Some(found) => {
                let old = self.rows[found].slot.entry();
                self.rows[found].slot = Slot::of(entry);
                old
            }
            None => self.beside.exchange(asn, place, entry),
        }
    }

    /// Takes the entry at an AS away, sought first at a place. An AS that is there stays, without an entry.
    #[inline(always)]
    pub(crate) fn take_near(&mut self, asn: Asn, place: usize) -> Slot
        ensures taken { entry_in result ≡ entry_at self.old asn }
        ensures none { entry_at self.new asn ≡ None }
        ensures others { (a : ℕ) → a ≢ asn → slot_at self.new a ≡ slot_at self.old a }
        ensures kept { IsSome (slot_at self.old asn) → IsSome (slot_at self.new asn) }
        ensures uses { (k : ℕ) → uses_of self.new k + use_of k (entry_in result) ≡ uses_of self.old k }
        ensures spare { self.new.spare ≡ self.old.spare }
    {
        match place_among(&self.ases, self.rows.as_slice(), asn, place) {
            Some(found) => {
                let slot = self.rows[found].slot;
                self.rows[found].slot = Slot::Empty;
                slot
            }
            None => Slot::of(self.beside.take(asn, place)),
        }
    }

    // Where the AS at a place may stand in a table. It is a hint.
    fn near(&self, place: usize) -> usize {
        if place < self.rows.len() {
            place
        } else {
            self.beside.near(place - self.rows.len())
        }
    }
}

// Gives back the hold of an entry's path.
#[inline(always)]
pub(crate) fn let_go(pool: &mut PathPool, entry: Option<Held>)
    requires { (k : ℕ) → use_of k entry ≤ holds_of pool.old k }
    ensures holds { (k : ℕ) → holds_of pool.new k + use_of k entry ≡ holds_of pool.old k }
    ensures back { GivesBack pool.old pool.new }
    ensures none { entry ≡ None → pool.new ≡ pool.old }
{
    if let Some(held) = entry {
        let _ = pool.release(held.path);
    }
}

// Puts an entry, or none, at an AS, sought first at a place, and gives back the hold of what stood there.
fn replace(slots: &mut Slots, pool: &mut PathPool, asn: Asn, place: usize, entry: Option<Held>)
    requires room { IsSome (slot_at slots.old asn) ⊎ (0 < slots.old.spare) }
    requires held { (k : ℕ) → uses_of slots.old k ≤ holds_of pool.old k }
    ensures this { slot_at slots.new asn ≡ Some entry }
    ensures others { (a : ℕ) → a ≢ asn → slot_at slots.new a ≡ slot_at slots.old a }
    ensures holds { (k : ℕ) → uses_of slots.new k + holds_of pool.old k
        ≡ uses_of slots.old k + holds_of pool.new k + use_of k entry }
    ensures back { GivesBack pool.old pool.new }
    ensures spare { slots.old.spare ≤ slots.new.spare + 1 }
    ensures kept_spare { IsSome (slot_at slots.old asn) → slots.new.spare ≡ slots.old.spare }
{
    let old = slots.exchange_near(asn, place, entry);
    let_go(pool, old);
}

/// How many ASes of the changes have no place in the slots yet.
pub(crate) fn count_missing(slots: &Slots, changes: &Slots) -> usize
    ensures { result ≡ missing_count slots.now (keys changes.now) }
{
    let mut missing = 0;
    for place in 0..changes.len() {
        let Some(pair) = changes.at(place) else {
            unreachable!();
        };
        if slots.get_near(pair.0, changes.near(place)).is_none() {
            missing += 1;
        }
    }
    missing
}

// Puts all changes in place, and gives back the holds of what stood there.
pub(crate) fn replace_all(slots: &mut Slots, changes: &Slots, pool: &mut PathPool)
    requires room { missing_count slots.old (keys changes.now) ≤ slots.old.spare }
    requires held { (k : ℕ) → uses_of slots.old k + uses_of changes.now k ≤ holds_of pool.old k }
    ensures entries { (a : ℕ) → entry_at slots.new a ≡ over (slot_at changes.now a) (entry_at slots.old a) }
    ensures holds { (k : ℕ) → uses_of slots.new k + holds_of pool.old k
        ≡ uses_of slots.old k + uses_of changes.now k + holds_of pool.new k }
    ensures back { GivesBack pool.old pool.new }
{
    for place in 0..changes.len() {
        let Some(pair) = changes.at(place) else {
            unreachable!();
        };
        replace(slots, pool, pair.0, changes.near(place), pair.1);
    }
}

// Gives back the holds of all entries.
pub(crate) fn let_all_go(slots: &Slots, pool: &mut PathPool)
    requires { (k : ℕ) → uses_of slots.now k ≤ holds_of pool.old k }
    ensures holds { (k : ℕ) → holds_of pool.new k + uses_of slots.now k ≡ holds_of pool.old k }
    ensures back { GivesBack pool.old pool.new }
{
    for place in 0..slots.len() {
        let Some(pair) = slots.at(place) else {
            unreachable!();
        };
        let_go(pool, pair.1);
    }
}

/// The rows of these ASes, with the entries that stand in the slots at them, which go. The place of each row
/// is where its AS may stand in the slots, a hint.
#[inline(never)]
pub(crate) fn take_rows(ases: &[Asn], room: Vec<Row>, from: &mut Slots, places: &[u32]) -> Vec<Row>
    requires empty { room.items ≡ [] }
    requires room { length ases.now ≤ room.cap }
    requires apart { IsDistinct nat_eq ases.now }
    ensures entries { entries_of result.items ≡ entries_at from.old ases.now }
    ensures none { (a : ℕ) → occurs a ases.now ≡ true → entry_at from.new a ≡ None }
    ensures others { (a : ℕ) → occurs a ases.now ≡ false → slot_at from.new a ≡ slot_at from.old a }
    ensures kept { (a : ℕ) → IsSome (slot_at from.old a) → IsSome (slot_at from.new a) }
    ensures uses { (k : ℕ) → uses_in (entries_of result.items) k + uses_of from.new k ≡ uses_of from.old k }
    ensures spare { from.new.spare ≡ from.old.spare }
{
    let mut rows = room;
    for (index, asn) in ases.iter().enumerate() {
        let slot = from.take_near(*asn, place_at(places, index));
        rows.push_reserved(Row { asn: *asn, slot });
    }
    rows
}
