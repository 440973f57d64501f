//! How large a plan of seeds may be, how many rounds there are, and how many cells their pool has.

/// How many rounds there are at most.
pub const MOST_ROUNDS: usize = 4;

/// How many prefixes a plan of seeds has at most.
pub const MOST_PREFIXES: usize = 32;

/// How many announcements a plan of seeds has at most.
pub const MOST_ANNOUNCEMENTS: usize = 64;

/// How many numbers an announced path has at most.
pub const MOST_NUMBERS: usize = 64;

/// How many cells the pool of rounds has at most, and how many numbers a path in it. The entries of four rounds of 32
/// prefixes and the announced paths have fewer.
pub const MAX_CELLS: usize = 40_000_000;
