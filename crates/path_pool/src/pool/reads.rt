//! What a pool tells. No call here changes it.

ghost use Rattle.net_names.specs.Prelude.{last_or, occurs};
ghost use Rattle.std.specs.Prelude.{◌≡◌, ◌+◌, ◌<◌, ◌≤◌, ◌∷◌, length, IfSome, IfOk, slice_index};

use super::{MOST_COUNT, PathPool};
use crate::PathId;
use net_names::{Asn, NoMemory, Path};
use std::alloc::Global;

impl PathPool {
    ghost use Rattle.path_pool.specs.Pool.{IsLive, tail_list, tail_of, list_of, count_of, head_of, live_count, spare_of, limit_of};

    /// How many cells are live.
    pub fn live(&self) -> usize
        ensures value { result ≡ live_count self.now }
        ensures within { result + spare_of self.now ≤ limit_of self.now }
    {
        self.cells.len() - self.dead
    }

    /// How many calls of [`cons`](PathPool::cons) there is room for.
    pub fn spare(&self) -> usize
        ensures { result ≡ spare_of self.now }
    {
        self.dead + self.room
    }

    /// How often the path is needed: its outside holds and the live cells over it.
    pub fn count(&self, id: PathId) -> u32
        requires { IsLive self.now id.0 }
        ensures { result ≡ count_of self.now id.0 }
    {
        self.cells[id.0 as usize].count
    }

    /// The first AS of the path.
    pub fn head(&self, id: PathId) -> Asn
        requires { IsLive self.now id.0 }
        ensures value { result ≡ head_of self.now id.0 }
        ensures first { result ≡ slice_index (list_of self.now id.0) 0 }
    {
        self.cells[id.0 as usize].head
    }

    /// The last AS of the path. Walks along no path.
    pub fn last(&self, id: PathId) -> Asn
        requires { IsLive self.now id.0 }
        ensures { result ≡ last_or 0 (list_of self.now id.0) }
    {
        self.cells[id.0 as usize].last
    }

    /// The path after its first AS. There is none where that AS is the only one.
    pub fn tail(&self, id: PathId) -> Option<PathId>
        requires { IsLive self.now id.0 }
        ensures which { result ≡ tail_of self.now id.0 }
        ensures list { list_of self.now id.0 ≡ head_of self.now id.0 ∷ tail_list self.now result }
        ensures live { IfSome result (λ t. IsLive self.now t.0) }
    {
        let cell = &self.cells[id.0 as usize];
        if cell.len > 1 {
            Some(PathId(cell.tail))
        } else {
            None
        }
    }

    /// How many ASes the path has: at least one, and never more than there are live cells, which is
    /// less than [`MOST_COUNT`].
    pub fn length(&self, id: PathId) -> u32
        requires { IsLive self.now id.0 }
        ensures value { result ≡ length (list_of self.now id.0) }
        ensures some { 0 < result }
        ensures short { result ≤ live_count self.now }
        ensures fits { result < MOST_COUNT }
    {
        self.cells[id.0 as usize].len
    }

    /// Whether the path has the AS. Walks along the path as far as that AS.
    pub fn contains(&self, id: PathId, asn: Asn) -> bool
        requires { IsLive self.now id.0 }
        ensures { result ≡ occurs asn (list_of self.now id.0) }
    {
        let mut at = id.0;
        let mut left = self.cells[at as usize].len;
        'cells: while left > 0 {
            let cell = &self.cells[at as usize];
            if cell.head == asn {
                return true;
            }
            at = cell.tail;
            left -= 1;
        }
        false
    }

    /// The ASes of the path, first to last, as a list of its own.
    pub fn copy_out(&self, alloc: Global, id: PathId) -> Result<Path, NoMemory>
        requires { IsLive self.now id.0 }
        ensures { IfOk result (λ p. p ≡ list_of self.now id.0) }
    {
        let mut path = Path::new(alloc);
        let mut at = id.0;
        let mut left = self.cells[at as usize].len;
        'cells: while left > 0 {
            let cell = &self.cells[at as usize];
            path.push(cell.head)?;
            at = cell.tail;
            left -= 1;
        }
        Ok(path)
    }
}
