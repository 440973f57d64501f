//! Room in a pool of paths.

ghost use Rattle.std.specs.Prelude.{◌≡◌, ◌+◌, ◌≤◌, OnOk};
ghost use Rattle.path_pool.specs.Pool.{SamePaths, spare_of, live_count, limit_of};

use net_names::NoMemory;
use path_pool::{PathPool, PoolError};

/// Makes room for so many numbers, which the limit of the pool allows. Its only refusal is want of memory.
pub fn reserve_numbers(pool: &mut PathPool, count: usize) -> Result<(), NoMemory>
    requires { live_count pool.old + count ≤ limit_of pool.old }
    ensures room { OnOk result (count ≤ spare_of pool.new) }
    ensures kept { SamePaths pool.old pool.new }
    ensures limit { limit_of pool.new ≡ limit_of pool.old }
{
    match pool.reserve(count) {
        Ok(()) => Ok(()),
        Err(PoolError::Memory) => Err(NoMemory),
        Err(PoolError::Full { .. }) => unreachable!(),
    }
}
