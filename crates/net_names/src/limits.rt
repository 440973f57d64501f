//! How long files, lists and paths are at most. The limits are this project's own.

/// How many bytes a relationship file, a payload file and a printed table have at most.
pub const MOST_LIST_BYTES: usize = 268_435_456;

/// How many bytes a scenario has at most, and each other file for what is asked.
pub const MOST_TEXT_BYTES: usize = 16_777_216;

/// How many ASes a path that a routing keeps has at most.
pub const MOST_IN_PATH: usize = 4_294_967_294;
