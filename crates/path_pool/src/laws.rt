//! What holds of every pool, whatever was called.

ghost use Rattle.path_pool.specs.Pool.{IsLive, IsOver, list_of, count_of, holds_of, over_count, live_count, spare_of, limit_of};
ghost use Rattle.std.specs.Prelude.{◌≡◌, ℕ, ◌+◌, ◌<◌, ◌≤◌, ◌⊎◌, ◌↔◌, length};

use crate::{MOST_COUNT, PathPool};

/// The count of a cell is its outside holds and the live cells over it.
pub fn counts_are_holds(pool: &PathPool)
    ensures { (k : ℕ) → count_of pool.now k ≡ holds_of pool.now k + over_count pool.now k }
{}

/// A cell is live exactly where it has an outside hold or is the tail of a live cell.
pub fn needed_are_live(pool: &PathPool)
    ensures { (k : ℕ) → IsLive pool.now k ↔ ((0 < holds_of pool.now k) ⊎ ((j : ℕ) × IsOver pool.now j k)) }
{}

/// The live cells and the spare ones are together at most as many as the limit, which is below
/// [`MOST_COUNT`].
pub fn cells_are_within(pool: &PathPool)
    ensures within { live_count pool.now + spare_of pool.now ≤ limit_of pool.now }
    ensures limit { limit_of pool.now < MOST_COUNT }
{}

/// A path has at least one AS.
pub fn paths_are_not_empty(pool: &PathPool)
    ensures { (k : ℕ) → IsLive pool.now k → 0 < length (list_of pool.now k) }
{}
