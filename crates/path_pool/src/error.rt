//! Why a pool has no room.
ghost use Rattle.std.specs.Prelude.{◌≡◌};
ghost use Rattle.path_pool.specs.declared.error.PoolError.TheVariants.{Memory};

use net_names::NoMemory;
use std::alloc::AllocError;

/// Why a pool has no room for the cells that were asked for.
#[derive(Clone, Copy, Debug, PartialEq, Eq)]
pub enum PoolError {
    /// Memory was refused.
    Memory,
    /// The live cells and the cells asked for are together more than the pool's limit.
    Full {
        /// How many cells are live.
        live: usize,
        /// How many cells were asked for.
        asked: usize,
        /// How many cells may be live.
        limit: usize,
    },
}

impl From<AllocError> for PoolError {
    ghost from_gives = { λ _ e. e ≡ Memory };

    fn from(_e: AllocError) -> PoolError {
        PoolError::Memory
    }
}

impl From<PoolError> for NoMemory {
    fn from(_e: PoolError) -> NoMemory {
        NoMemory
    }
}
