//! The two ways of a recomputation.

/// In which order ASes have their turns.
#[derive(Clone, Copy)]
pub(crate) enum Way {
    /// Upwards, by rising rank.
    Up,
    /// Downwards, by falling rank.
    Down,
}
