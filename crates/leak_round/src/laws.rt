//! What holds of all rounds, whatever was called.

ghost use Rattle.std.specs.Prelude.{◌≡◌, ◌↔◌, ℕ, ◌<◌, false};
ghost use Rattle.path_pool.specs.Pool.{IsLive};
ghost use Rattle.leak_round.specs.Reached.{LiesOn};
ghost use Rattle.leak_round.specs.Rounds.{is_open, pool_of, uses_of};

use crate::rounds::Rounds;

/// While no plan is open, a cell is live exactly where it lies on the path of an entry of a table or of an
/// announcement: it is the cell of that path, or one tail after the other leads from there to it.
pub fn live_cells_are_reached(rounds: &Rounds)
    requires closed { is_open rounds.now ≡ false }
    ensures { (k : ℕ) → IsLive (pool_of rounds.now) k ↔
        ((j : ℕ) × (0 < uses_of rounds.now j) × LiesOn (pool_of rounds.now) k j) }
{}
