//! How often cells may be counted.

/// How often each cell of a pool may be counted at most where a table is made, or is changed after an edit. Each step
/// adds at most one to a count, and there are few ASes, so that no count grows too great.
pub const MOST_COUNTED: u32 = 4_000_000_000;
