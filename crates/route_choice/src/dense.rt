//! Entries of many ASes: a sparse set, whose marks by place lead to dense rows.

ghost use Rattle.std.specs.Prelude.{◌≡◌, ◌≢◌, ◌⊎◌, ℕ, ◌+◌, ◌^◌, ◌<◌, ◌≤◌, [], ◌∷◌, ◌++◌, length, get_or, slice_get, Some, None, IsSome, IsOk, IfOk, OnOk, nat_eq, unwrap_or};
ghost use Rattle.indexmap.specs.IndexMap.{get, spare};
ghost use Rattle.as_places.specs.Places.{place_of};
ghost use Rattle.route_choice.specs.Dense.{marked, row_of};
ghost use Rattle.route_choice.specs.Slots.{keys, slot_at, use_of, uses_of};

use crate::Held;
use crate::row::Row;
use crate::slot::Slot;
use as_places::AsPlaces;
use indexmap::IndexMap;
use net_names::{Asn, NoMemory, place_at};
use std::alloc::Global;
use std::marker::Model;
use std::rc::Rc;

/// Entries, or none, at many ASes, in the order in which they came. Contracts see the pairs, and for how
/// many more ASes there is room.
///
/// An AS that has a place in a list has a mark there, which is one more than the index of its row, or 0
/// where it has no row. So a look at a hinted place needs no hash. The rows of other ASes are found by hash.
#[derive(Drop)]
pub(crate) struct Dense {
    ases: Rc<AsPlaces>,
    marks: Vec<u32>,
    late: IndexMap<Asn, u32>,
    rows: Vec<Row>,
    // Where the AS of each row may stand in a table. It is a hint.
    near: Vec<u32>,
    room: usize,
}

impl Model for Dense {
    ghost use Rattle.route_choice.specs.Slots.{Slots as SlotList};

    ghost Value = { SlotList };

    ghost use Rattle.route_choice.specs.Rows.{entries_of};
    ghost use Rattle.route_choice.specs.Dense.{IsDense};

    ghost view = { λ d. record { entries = entries_of d.rows.items; spare = d.room } };

    ghost invariant = { λ d. IsDense d.ases.value.ases d.marks.items d.late d.rows.items d.rows.cap d.room };
}

// The place of an AS in a list, by its hash.
#[cold]
#[inline(never)]
fn place_by_hash(ases: &AsPlaces, asn: Asn) -> Option<usize>
    ensures { result ≡ place_of ases.now.ases asn }
{
    ases.place(asn)
}

// The place of an AS in a list, sought first at a place.
#[inline(always)]
fn place_near(ases: &AsPlaces, asn: Asn, near: usize) -> Option<usize>
    ensures { result ≡ place_of ases.now.ases asn }
{
    match ases.as_slice().get(near) {
        Some(found) if *found == asn => Some(near),
        _ => place_by_hash(ases, asn),
    }
}

// Room is made for no more rows at once, and where there are no more.
const MOST_ROWS: usize = 0x7fff_ffff;

// The row of an AS that has no place, by its hash.
#[cold]
#[inline(never)]
fn late_row(late: &IndexMap<Asn, u32>, asn: Asn) -> Option<usize>
    ensures { result ≡ get nat_eq late.now asn }
{
    match late.get(&asn) {
        Some(row) => Some(*row as usize),
        None => None,
    }
}

// The row that the mark at a place names.
#[inline(always)]
fn marked_row(marks: &[u32], place: usize) -> Option<usize>
    ensures { result ≡ marked (get_or marks.now place 0) }
{
    match marks.get(place) {
        Some(mark) if *mark != 0 => Some(*mark as usize - 1),
        _ => None,
    }
}

// The row of an AS, sought first at a place.
#[inline(always)]
fn row_near(
    ases: &AsPlaces,
    marks: &[u32],
    late: &IndexMap<Asn, u32>,
    asn: Asn,
    near: usize,
) -> Option<usize>
    ensures { result ≡ row_of ases.now.ases marks.now late.now asn }
{
    match place_near(ases, asn, near) {
        Some(place) => marked_row(marks, place),
        None => late_row(late, asn),
    }
}

// Says where the row of an AS stands, sought first at a place.
#[inline(always)]
fn set_row(
    ases: &AsPlaces,
    marks: &mut Vec<u32>,
    late: &mut IndexMap<Asn, u32>,
    asn: Asn,
    near: usize,
    row: u32,
)
    requires marks { length marks.old.items ≡ length ases.now.ases }
    requires room { 0 < spare late.old }
    requires small { row + 1 < 2 ^ 32 }
    ensures this { row_of ases.now.ases marks.new.items late.new asn ≡ Some row }
    ensures others { (a : ℕ) → a ≢ asn →
        row_of ases.now.ases marks.new.items late.new a ≡ row_of ases.now.ases marks.old.items late.old a }
    ensures marks { length marks.new.items ≡ length marks.old.items }
    ensures spare { spare late.old ≤ spare late.new + 1 }
{
    match place_near(ases, asn, near) {
        Some(place) => marks[place] = row + 1,
        None => match late.insert(asn, row) {
            Ok(_) => {}
            Err(_) => unreachable!(),
        },
    }
}

impl Dense {
    /// No AS.
    pub fn new(alloc: Global, ases: &Rc<AsPlaces>) -> Result<Dense, NoMemory>
        ensures { IfOk result (λ d. d.entries ≡ []) }
    {
        let shared = ases.clone()?;
        let marks = Vec::from_elem(alloc, 0u32, ases.len())?;
        Ok(Dense {
            ases: shared,
            marks,
            late: IndexMap::new(alloc),
            rows: Vec::new(alloc),
            near: Vec::new(alloc),
            room: 0,
        })
    }

    /// How many ASes there are.
    pub fn len(&self) -> usize
        ensures len { result ≡ length self.now.entries }
        ensures small { result ≤ 2 ^ 32 }
    {
        self.rows.len()
    }

    /// Makes room for `n` more ASes. The entries stay, also after a refusal.
    #[inline(never)]
    pub fn reserve(&mut self, n: usize) -> Result<(), NoMemory>
        ensures room { OnOk result (n ≤ self.new.spare) }
        ensures more { self.old.spare ≤ self.new.spare }
        ensures succeeds { n ≤ self.old.spare → IsOk result }
        ensures same { self.new.entries ≡ self.old.entries }
    {
        if n <= self.room {
            return Ok(());
        }
        if n > MOST_ROWS || self.rows.len() > MOST_ROWS {
            return Err(NoMemory);
        }
        self.rows.reserve(n)?;
        self.near.reserve(n)?;
        self.late.reserve(n)?;
        self.room = n;
        Ok(())
    }

    /// The AS at an index, and what stands at it.
    #[inline(never)]
    pub fn pair_at(&self, index: usize) -> Option<(Asn, Option<Held>)>
        ensures { result ≡ slice_get self.now.entries index }
    {
        match self.rows.get(index) {
            Some(row) => Some((row.asn, row.slot.entry())),
            None => None,
        }
    }

    /// Where the AS at an index may stand in a table. It is a hint.
    #[inline(never)]
    pub fn hint(&self, index: usize) -> usize {
        place_at(self.near.as_slice(), index)
    }

    /// What stands at an AS, sought first at a place.
    #[inline(always)]
    pub fn get(&self, asn: Asn, near: usize) -> Option<Option<Held>>
        ensures { result ≡ slot_at self.now asn }
    {
        match row_near(&self.ases, self.marks.as_slice(), &self.late, asn, near) {
            Some(row) => Some(self.rows[row].slot.entry()),
            None => None,
        }
    }

    /// Puts an entry, or none, at an AS at which there is nothing yet, and which may stand at that place.
    #[inline(never)]
    pub fn push(&mut self, asn: Asn, near: usize, entry: Option<Held>)
        requires absent { slot_at self.old asn ≡ None }
        requires room { 0 < self.old.spare }
        ensures entries { self.new.entries ≡ self.old.entries ++ (asn, entry) ∷ [] }
        ensures spare { self.old.spare ≤ self.new.spare + 1 }
    {
        let row = self.rows.len() as u32;
        match self.rows.push(Row {
            asn,
            slot: Slot::of(entry),
        }) {
            Ok(()) => {}
            Err(_) => unreachable!(),
        }
        let _ = self.near.push(u32::try_from(near).unwrap_or(0));
        set_row(&self.ases, &mut self.marks, &mut self.late, asn, near, row);
        self.room -= 1;
    }

    /// Puts an entry, or none, at an AS, which may stand at that place in a table. Returns what stood
    /// there.
    #[inline(never)]
    pub fn put(&mut self, asn: Asn, near: usize, entry: Option<Held>) -> Option<Held>
        requires { IsSome (slot_at self.old asn) ⊎ (0 < self.old.spare) }
        ensures old { result ≡ unwrap_or (slot_at self.old asn) None }
        ensures this { slot_at self.new asn ≡ Some entry }
        ensures others { (a : ℕ) → a ≢ asn → slot_at self.new a ≡ slot_at self.old a }
        ensures uses { (k : ℕ) → uses_of self.new k + use_of k result ≡ uses_of self.old k + use_of k entry }
        ensures spare { self.old.spare ≤ self.new.spare + 1 }
        ensures kept { IsSome (slot_at self.old asn) → keys self.new ≡ keys self.old }
        ensures kept_spare { IsSome (slot_at self.old asn) → self.new.spare ≡ self.old.spare }
        ensures new_place { slot_at self.old asn ≡ None → keys self.new ≡ keys self.old ++ asn ∷ [] }
    {
        match row_near(&self.ases, self.marks.as_slice(), &self.late, asn, near) {
            Some(row) => {
                let old = self.rows[row].slot.entry();
                self.rows[row].slot = Slot::of(entry);
                old
            }
            None => {
                self.push(asn, near, entry);
                None
            }
        }
    }
}
