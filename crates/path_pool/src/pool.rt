//! The region of cells, and the calls that change it: an arena of reference-counted cons cells with a free list. A cell
//! knows how long its path is and with which AS it ends, so that offers are compared without a walk.

ghost use Rattle.path_pool.specs.Region.{IsRegion};
ghost use Rattle.std.specs.Option.{ForSome};
ghost use Rattle.std.specs.Prelude.{◌≡◌, ◌≢◌, ℕ, ◌+◌, ◌<◌, ◌≤◌, [], ◌∷◌, ◌++◌, length, slice_set, IsOk, IfErr, OnOk, OnErr};

mod reads;

use crate::{PathId, PoolError};
use net_names::Asn;
use std::alloc::Global;

/// The most that a count of holds, a length or a place in a pool can be.
pub const MOST_COUNT: u32 = 4_294_967_295;

/// One AS of a path, and where the rest of the path stands. A cell that is not live belongs to no
/// path: its tail is the next such cell.
#[derive(Clone, Copy)]
pub struct Cell {
    head: Asn,
    tail: u32,
    /// How many cells hang together from here on: of a path, or, where this cell is not live, of those that are not.
    len: u32,
    /// The outside holds and the live cells whose tail this is.
    count: u32,
    /// The last AS of the path.
    last: Asn,
}

/// A region of cells. A live cell stands for the path of its AS and of the cells below it.
#[derive(Drop)]
pub struct PathPool {
    cells: Vec<Cell>,
    /// The first of the cells that are not live, if there is one.
    free: u32,
    /// How many cells are not live.
    dead: usize,
    /// How many more cells are promised, for which there is room behind the others.
    room: usize,
    limit: usize,
    ghost region: { IsRegion cells.items free dead limit },
    ghost has_room: { cells.len + room ≤ cells.cap },
    ghost within: { cells.len + room ≤ limit },
}

impl PathPool {
    ghost use Rattle.path_pool.specs.Region.{CanFollow, cells_above, with_count, first_cell, dead_cell};
    ghost use Rattle.path_pool.specs.Pool.{IsLive, GainsPath, PassesHold, GainsWholePath, GainsHold, LosesHold, SamePaths, IsRefusal, tail_list, list_of, holds_of, count_of, live_count, spare_of, limit_of};

    /// A pool without paths, in which at most `limit` cells may be live at once.
    pub fn new(alloc: Global, limit: usize) -> PathPool
        requires { limit < MOST_COUNT }
        ensures none { (k : ℕ) → ¬ IsLive result k }
        ensures live { live_count result ≡ 0 }
        ensures spare { spare_of result ≡ 0 }
        ensures limit { limit_of result ≡ limit }
    {
        PathPool {
            cells: Vec::new(alloc),
            free: 0,
            dead: 0,
            room: 0,
            limit,
        }
    }

    /// Makes room for `n` more calls of [`cons`](PathPool::cons). It is refused with
    /// [`PoolError::Full`] exactly where the live cells and `n` are together more than the limit,
    /// and with [`PoolError::Memory`] only where the room is not there already. Paths and holds
    /// stay as they are, also after a refusal.
    pub fn reserve(&mut self, n: usize) -> Result<(), PoolError>
        ensures room { OnOk result (n ≤ spare_of self.new) }
        ensures fits { OnOk result (live_count self.old + n ≤ limit_of self.old) }
        ensures refused { IfErr result (λ e. IsRefusal e (live_count self.old) n (limit_of self.old)) }
        ensures succeeds { n ≤ spare_of self.old → IsOk result }
        ensures kept { SamePaths self.old self.new }
        ensures spare { spare_of self.old ≤ spare_of self.new }
        ensures limit { limit_of self.new ≡ limit_of self.old }
    {
        let live = self.live();
        if n > self.limit - live {
            return Err(PoolError::Full {
                live,
                asked: n,
                limit: self.limit,
            });
        }
        if n > self.dead + self.room {
            let room = n - self.dead;
            self.cells.reserve(room)?;
            self.room = room;
        }
        Ok(())
    }

    /// A new path: `head`, and then the path `tail`, or nothing. It comes with one outside hold,
    /// and each other path and hold stays. Takes no memory.
    #[inline(always)]
    pub fn cons(&mut self, head: Asn, tail: Option<PathId>) -> PathId
        requires spare { 0 < spare_of self.old }
        requires tail_live { ForSome tail (λ t. IsLive self.old t.0) }
        requires tail_room { ForSome tail (λ t. count_of self.old t.0 < MOST_COUNT) }
        ensures made { GainsPath self.old self.new result.0 (head ∷ tail_list self.old tail) }
        ensures live { live_count self.new ≡ live_count self.old + 1 }
        ensures spare { spare_of self.new + 1 ≡ spare_of self.old }
        ensures limit { limit_of self.new ≡ limit_of self.old }
    {
        match tail {
            None => {
                self.find_cell();
                self.take_cell(head, 0, 1, head)
            }
            Some(t) => self.cons_over(head, t),
        }
    }

    /// A new path: `head`, and then the path `rest`, of which one outside hold passes on to the new
    /// path. Each other path and hold stays. Takes no memory.
    pub fn lengthen(&mut self, head: Asn, rest: PathId) -> PathId
        requires spare { 0 < spare_of self.old }
        requires held { 0 < holds_of self.old rest.0 }
        ensures made { PassesHold self.old self.new rest.0 result.0 (head ∷ list_of self.old rest.0) }
        ensures live { live_count self.new ≡ live_count self.old + 1 }
        ensures spare { spare_of self.new + 1 ≡ spare_of self.old }
        ensures limit { limit_of self.new ≡ limit_of self.old }
    {
        self.find_cell();
        let cell = self.cells[rest.0 as usize];
        self.take_cell(head, rest.0, cell.len + 1, cell.last)
    }

    /// A new path of these ASes, first to last, which shares no cell with another path. It comes with
    /// one outside hold, and each other path and hold stays. Takes no memory.
    pub fn copy_in(&mut self, numbers: &[Asn]) -> PathId
        requires some { 0 < length numbers.now }
        requires spare { length numbers.now ≤ spare_of self.old }
        ensures made { GainsWholePath self.old self.new result.0 numbers.now }
        ensures live { live_count self.new ≡ live_count self.old + length numbers.now }
        ensures spare { spare_of self.new + length numbers.now ≡ spare_of self.old }
        ensures limit { limit_of self.new ≡ limit_of self.old }
    {
        let mut left = numbers.len() - 1;
        let mut path = self.cons(numbers[left], None);
        'numbers: while left > 0 {
            left -= 1;
            path = self.lengthen(numbers[left], path);
        }
        path
    }

    /// One outside hold of the path more. All else stays. Takes no memory.
    pub fn hold(&mut self, id: PathId)
        requires live { IsLive self.old id.0 }
        requires room { count_of self.old id.0 < MOST_COUNT }
        ensures held { GainsHold self.old self.new id.0 }
        ensures live { live_count self.new ≡ live_count self.old }
        ensures spare { spare_of self.new ≡ spare_of self.old }
        ensures limit { limit_of self.new ≡ limit_of self.old }
    {
        let count = self.count(id) + 1;
        self.set_count(id, count);
    }

    /// One outside hold of the path less. Cells that nothing needs any more are live no more:
    /// the answer is how many these are. Every other hold stays, and so does the path of each
    /// cell that stays live. Takes no memory.
    pub fn release(&mut self, id: PathId) -> usize
        requires { 0 < holds_of self.old id.0 }
        ensures released { LosesHold self.old self.new id.0 }
        ensures freed { live_count self.new + result ≡ live_count self.old }
        ensures spare { spare_of self.new ≡ spare_of self.old + result }
        ensures limit { limit_of self.new ≡ limit_of self.old }
    {
        let before = self.dead;
        let mut at = id.0;
        let mut more = true;
        'cells: while more {
            let cell = self.cells[at as usize];
            if cell.count > 1 {
                self.set_count(PathId(at), cell.count - 1);
                more = false;
            } else {
                self.free_cell(PathId(at), cell.head);
                at = cell.tail;
                more = cell.len > 1;
            }
        }
        self.dead - before
    }

    // Puts the cell of a new path behind the others, where there is room for one.
    #[inline(always)]
    fn push_cell(&mut self, head: Asn, tail: u32, len: u32, last: Asn) -> PathId
        requires room { 0 < self.old.room }
        requires follows { CanFollow self.old.cells.items (first_cell head tail len last) }
        ensures which { result.0 ≡ length self.old.cells.items }
        ensures cells { self.new.cells.items ≡ self.old.cells.items ++ first_cell head tail len last ∷ [] }
        ensures live { live_count self.new ≡ live_count self.old + 1 }
        ensures dead { self.new.dead ≡ self.old.dead }
        ensures room { self.new.room + 1 ≡ self.old.room }
        ensures limit { limit_of self.new ≡ limit_of self.old }
    {
        let at = self.cells.len();
        self.cells.push_reserved(Cell {
            head,
            tail,
            len,
            count: 1,
            last,
        });
        self.room -= 1;
        PathId(at as u32)
    }

    // A new path over one that is there: in a free cell, or behind the others where none is free.
    #[inline(always)]
    fn cons_over(&mut self, head: Asn, tail: PathId) -> PathId
        requires spare { 0 < spare_of self.old }
        requires tail_live { IsLive self.old tail.0 }
        requires tail_room { count_of self.old tail.0 < MOST_COUNT }
        ensures made { GainsPath self.old self.new result.0 (head ∷ list_of self.old tail.0) }
        ensures live { live_count self.new ≡ live_count self.old + 1 }
        ensures spare { spare_of self.new + 1 ≡ spare_of self.old }
        ensures limit { limit_of self.new ≡ limit_of self.old }
    {
        let cell = self.cells[tail.0 as usize];
        self.set_count(tail, cell.count + 1);
        let len = cell.len + 1;
        if self.dead == 0 {
            self.push_cell(head, tail.0, len, cell.last)
        } else {
            self.take_cell(head, tail.0, len, cell.last)
        }
    }

    // Writes how often a live cell is needed.
    #[inline(always)]
    fn set_count(&mut self, id: PathId, count: u32)
        requires live { IsLive self.old id.0 }
        requires some { 0 < count }
        requires enough { cells_above self.old.cells.items id.0 ≤ count }
        ensures cells { self.new.cells.items ≡ with_count self.old.cells.items id.0 count }
        ensures free { self.new.free ≡ self.old.free }
        ensures spare { self.new.dead ≡ self.old.dead }
        ensures room { self.new.room ≡ self.old.room }
        ensures limit { limit_of self.new ≡ limit_of self.old }
    {
        let cell = &mut self.cells[id.0 as usize];
        cell.count = count;
    }

    // Takes the first free cell for a new path.
    #[inline(never)]
    fn take_cell(&mut self, head: Asn, tail: u32, len: u32, last: Asn) -> PathId
        requires spare { 0 < self.old.dead }
        requires follows { CanFollow self.old.cells.items (first_cell head tail len last) }
        ensures which { result.0 ≡ self.old.free }
        ensures cells { self.new.cells.items ≡
            slice_set self.old.cells.items self.old.free (first_cell head tail len last) }
        ensures live { live_count self.new ≡ live_count self.old + 1 }
        ensures spare { self.new.dead + 1 ≡ self.old.dead }
        ensures room { self.new.room ≡ self.old.room }
        ensures limit { limit_of self.new ≡ limit_of self.old }
    {
        let at = self.free;
        self.free = self.cells[at as usize].tail;
        self.dead -= 1;
        self.cells[at as usize] = Cell {
            head,
            tail,
            len,
            count: 1,
            last,
        };
        PathId(at)
    }

    // Puts a cell that nothing needs any more before the free ones.
    fn free_cell(&mut self, id: PathId, head: Asn)
        requires live { IsLive self.old id.0 }
        requires none { cells_above self.old.cells.items id.0 ≡ 0 }
        ensures cells { self.new.cells.items ≡
            slice_set self.old.cells.items id.0 (dead_cell head self.old.free (self.old.dead + 1)) }
        ensures spare { self.new.dead ≡ self.old.dead + 1 }
        ensures room { self.new.room ≡ self.old.room }
        ensures limit { limit_of self.new ≡ limit_of self.old }
    {
        let next = self.free;
        self.dead += 1;
        self.cells[id.0 as usize] = Cell {
            head,
            tail: next,
            len: self.dead as u32,
            count: 0,
            last: head,
        };
        self.free = id.0;
    }

    // Puts a cell that is not live behind the others, where there is room for one.
    fn add_cell(&mut self)
        requires room { 0 < self.old.room }
        ensures same { SamePaths self.old self.new }
        ensures more { self.new.dead ≡ self.old.dead + 1 }
        ensures less { self.new.room + 1 ≡ self.old.room }
        ensures limit { limit_of self.new ≡ limit_of self.old }
    {
        let next = self.free;
        let at = self.cells.len();
        let len = self.dead + 1;
        let asn = any_asn();
        self.cells.push_reserved(Cell {
            head: asn,
            tail: next,
            len: len as u32,
            count: 0,
            last: asn,
        });
        self.free = at as u32;
        self.dead = len;
        self.room -= 1;
    }

    // Makes sure that some cell is not live, where a path is to be made.
    fn find_cell(&mut self)
        requires { 0 < spare_of self.old }
        ensures some { 0 < self.new.dead }
        ensures same { SamePaths self.old self.new }
        ensures spare { spare_of self.new ≡ spare_of self.old }
        ensures limit { limit_of self.new ≡ limit_of self.old }
    {
        if self.dead == 0 {
            self.add_cell();
        }
    }
}

// What stands in a cell that belongs to no path.
fn any_asn() -> Asn {
    match Asn::new(1) {
        Some(asn) => asn,
        None => unreachable!(),
    }
}
