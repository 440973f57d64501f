//! AS paths as cells in one region. A cell has an AS and, before the end of its path, the cell of
//! the rest, so paths that end alike share their ends. Each cell counts who needs it: the holds
//! that callers took, and the cells over it. One that nobody needs any more is free for another
//! path. Each path that is needed keeps its ASes, whatever is done to the others, and once room
//! is reserved no call takes memory.
#![tactic(auto)]

mod error;
mod laws;
mod path_id;
mod pool;

pub use error::PoolError;
pub use laws::{cells_are_within, counts_are_holds, needed_are_live, paths_are_not_empty};
pub use path_id::PathId;
pub use pool::{MOST_COUNT, PathPool};
