//! How many ASes there are of each end and group.
ghost use Rattle.std.specs.Prelude.{◌≡◌, ℕ, ◌+◌, ◌<◌, ◌≤◌, ◌^◌, Bool, true, false, ◌&&◌, if◌then◌else◌, length, slice_index_or, IfSome, IfNone, IfOk, OnOk};
ghost use Rattle.std.specs.List.{list_any, sum_by};
ghost use Rattle.data_trace.specs.Watches.{in_group as is_in_group, is_end};
ghost use Rattle.data_trace.specs.Sums.{part, is_same_flag, is_counted as counts};
ghost use Rattle.data_trace.specs.declared.kinds.End.{End as AnEnd};
ghost use Rattle.data_trace.specs.declared.cell.Cell.{Cell as ACell};
ghost use Rattle.data_trace.specs.declared.sums.TheConstants.{NEAR};

use crate::cell::Cell;
use crate::{End, Which};
use std::alloc::{AllocError, Global};

/// How many ASes there are of each end and group, in a cell for each end, stub flag and number of a
/// policy's group that some AS has. A cell that counts no AS is free for others.
#[derive(Drop)]
pub struct Sums {
    cells: Vec<Cell>,
    // by remainders of keys, where the cell of one of them may stand
    near: Vec<usize>,
}

// By how many remainders keys are told apart, while many ASes are counted.
const NEAR: usize = 1024;

// How far the remainders of stubs stand behind those of other ASes.
const STUBS: usize = 512;

// How far the remainders of one number of a policy's group stand behind those of the number before it.
const LABELS: usize = 64;

// The remainder of an end and groups. Ends count from 0, so that where few ASes are ends, stubs and others and the
// groups of policies have remainders of their own.
fn remainder(end: &End, stub: bool, label: u8) -> usize
    ensures { result < NEAR }
{
    let number = match end {
        End::At(asn) => asn.get() as usize,
        End::NoRoute => 1,
        End::Loop => 2,
    };
    let groups = if stub { STUBS } else { 0 };
    (number + groups + LABELS * label as usize) % NEAR
}

// Whether an AS is one of the group.
fn in_group(which: Which, stub: bool, label: u8) -> bool
    ensures { result ≡ is_in_group which stub label }
{
    match which {
        Which::All => true,
        Which::Stub => stub,
        Which::Label(number) => label == number,
    }
}

// Whether two ends are the same.
fn same_end(a: &End, b: &End) -> bool
    ensures { result ≡ is_end a.now b.now }
{
    *a == *b
}

// Whether two flags are the same.
fn same_flag(a: bool, b: bool) -> bool
    ensures { result ≡ is_same_flag a b }
{
    a == b
}

// Whether the cell counts ASes of this end and these groups.
fn is_counted(cell: &Cell, end: &End, stub: bool, label: u8) -> bool
    ensures { result ≡ counts end.now stub label cell.now }
{
    cell.count > 0 && same_end(&cell.end, end) && same_flag(cell.stub, stub) && cell.label == label
}

// The place of the cell that counts ASes of this end and these groups, if there is one.
fn find(cells: &[Cell], end: &End, stub: bool, label: u8) -> Option<usize>
    ensures some { IfSome result (λ i. (i < length cells.now)
        × ((d : ACell) → counts end.now stub label (slice_index_or cells.now i d) ≡ true)) }
    ensures none { IfNone result (list_any (counts end.now stub label) cells.now ≡ false) }
{
    for place in 0..cells.len() {
        if is_counted(&cells[place], end, stub, label) {
            return Some(place);
        }
    }
    None
}

// The same, sought first at a place.
fn find_near(cells: &[Cell], near: usize, end: &End, stub: bool, label: u8) -> Option<usize>
    ensures some { IfSome result (λ i. (i < length cells.now)
        × ((d : ACell) → counts end.now stub label (slice_index_or cells.now i d) ≡ true)) }
    ensures none { IfNone result (list_any (counts end.now stub label) cells.now ≡ false) }
{
    if near < cells.len() && is_counted(&cells[near], end, stub, label) {
        return Some(near);
    }
    find(cells, end, stub, label)
}

// The place of a cell that counts no AS, if there is one.
fn free(cells: &[Cell]) -> Option<usize>
    ensures some { IfSome result (λ i. (i < length cells.now)
        × ((d : ACell) → (slice_index_or cells.now i d).count ≡ 0)) }
    ensures none { IfNone result (length cells.now ≤ sum_by (part (λ e s l. true)) cells.now) }
{
    for place in 0..cells.len() {
        if cells[place].count == 0 {
            return Some(place);
        }
    }
    None
}

// The ASes of the cell, if they are in the group.
fn weigh(which: Which, cell: &Cell) -> u64
    ensures { result ≡ part (λ e s l. is_in_group which s l) cell.now }
{
    if in_group(which, cell.stub, cell.label) {
        cell.count as u64
    } else {
        0
    }
}

// The ASes of the cell, if they are in the group and have this end.
fn weigh_end(which: Which, end: &End, cell: &Cell) -> u64
    ensures { result ≡ part (λ e s l. is_in_group which s l && is_end e end.now) cell.now }
{
    if in_group(which, cell.stub, cell.label) && same_end(&cell.end, end) {
        cell.count as u64
    } else {
        0
    }
}

impl Sums {
    ghost use Rattle.data_trace.specs.Sums.{total, room_of};

    /// The sums of no AS. Takes no memory.
    pub fn none(alloc: Global) -> Sums
        ensures { (p : AnEnd → Bool → ℕ → Bool) → total p result ≡ 0 }
    {
        Sums {
            cells: Vec::new(alloc),
            near: Vec::new(alloc),
        }
    }

    /// The sums of no AS, with room for so many cells, into which many ASes are to be counted.
    pub fn with_room(alloc: Global, cells: usize) -> Result<Sums, AllocError>
        ensures none { IfOk result (λ s. (p : AnEnd → Bool → ℕ → Bool) → total p s ≡ 0) }
        ensures room { IfOk result (λ s. cells ≤ room_of s) }
    {
        let cells = Vec::with_capacity(alloc, cells)?;
        let near = Vec::from_elem(alloc, 0, NEAR)?;
        Ok(Sums { cells, near })
    }

    /// The same sums, with room for no further cell.
    pub fn copied(&self, alloc: Global) -> Result<Sums, AllocError>
        ensures { IfOk result (λ s. (p : AnEnd → Bool → ℕ → Bool) → total p s ≡ total p self.now) }
    {
        let cells = Vec::from_slice(alloc, &self.cells)?;
        let near = Vec::new(alloc);
        Ok(Sums { cells, near })
    }

    /// Makes room for so many cells in all.
    pub fn reserve(&mut self, cells: usize) -> Result<(), AllocError>
        ensures same { (p : AnEnd → Bool → ℕ → Bool) → total p self.new ≡ total p self.old }
        ensures room { OnOk result (cells ≤ room_of self.new) }
        ensures more { room_of self.old ≤ room_of self.new }
    {
        self.cells.reserve(cells)
    }

    // A cell for one AS.
    fn open(&mut self, end: End, stub: bool, label: u8)
        requires room { total (λ e s l. true) self.old < room_of self.old }
        ensures added { (p : AnEnd → Bool → ℕ → Bool) →
            total p self.new ≡ total p self.old + (if p end stub label then 1 else 0) }
        ensures room { room_of self.old ≤ room_of self.new }
    {
        let cell = Cell {
            end,
            stub,
            label,
            count: 1,
        };
        match free(&self.cells) {
            Some(place) => self.cells[place] = cell,
            None => {
                if self.cells.push(cell).is_err() {
                    unreachable!();
                }
            }
        }
    }

    // Where the cell of this remainder may stand.
    fn near_at(&self, at: usize) -> usize {
        match self.near.get(at) {
            Some(place) => *place,
            None => 0,
        }
    }

    // Keeps where the cell of this remainder stands.
    fn keep_near(&mut self, at: usize, place: usize)
        ensures { self.new.cells ≡ self.old.cells }
    {
        if let Some(kept) = self.near.get_mut(at) {
            *kept = place;
        }
    }

    /// One AS more. It takes no memory.
    pub fn add(&mut self, end: End, stub: bool, label: u8)
        requires room { total (λ e s l. true) self.old < room_of self.old }
        requires few { total (λ e s l. true) self.old < 4294967295 }
        ensures added { (p : AnEnd → Bool → ℕ → Bool) →
            total p self.new ≡ total p self.old + (if p end stub label then 1 else 0) }
        ensures room { room_of self.old ≤ room_of self.new }
    {
        let at = remainder(&end, stub, label);
        match find_near(&self.cells, self.near_at(at), &end, stub, label) {
            Some(place) => {
                self.keep_near(at, place);
                self.cells[place].count += 1;
            }
            None => self.open(end, stub, label),
        }
    }

    /// One AS less, which is counted.
    pub fn take(&mut self, end: End, stub: bool, label: u8)
        requires { (p : AnEnd → Bool → ℕ → Bool) → p end stub label ≡ true → 1 ≤ total p self.old }
        ensures taken { (p : AnEnd → Bool → ℕ → Bool) →
            total p self.new + (if p end stub label then 1 else 0) ≡ total p self.old }
        ensures room { room_of self.old ≤ room_of self.new }
    {
        let Some(place) = find(&self.cells, &end, stub, label) else {
            unreachable!();
        };
        self.cells[place].count -= 1;
    }

    /// How many ASes of the group there are.
    pub fn size(&self, which: Which) -> u64
        requires { total (λ e s l. true) self.now < 2 ^ 63 }
        ensures { result ≡ total (λ e s l. is_in_group which s l) self.now }
    {
        let mut sum = 0;
        for cell in self.cells.as_slice() {
            sum += weigh(which, cell);
        }
        sum
    }

    /// How many ASes of the group there are whose traces have this end.
    pub fn count(&self, which: Which, end: End) -> u64
        requires { total (λ e s l. true) self.now < 2 ^ 63 }
        ensures { result ≡ total (λ e s l. is_in_group which s l && is_end e end) self.now }
    {
        let mut sum = 0;
        for cell in self.cells.as_slice() {
            sum += weigh_end(which, &end, cell);
        }
        sum
    }
}
