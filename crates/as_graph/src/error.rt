//! Why a graph is not made or not changed.
ghost use Rattle.std.specs.Prelude.{◌≡◌};
ghost use Rattle.as_graph.specs.declared.error.GraphError.TheVariants.{Memory};

use std::alloc::{AllocError, AllocFailed};

/// Why a graph is not made or not changed.
#[derive(Clone, Copy, Debug, PartialEq, Eq)]
pub enum GraphError {
    /// There is not enough memory.
    Memory,
    /// There would be more than 1,500,000 links.
    TooManyLinks,
    /// There would be more than 150,000 ASes.
    TooManyAses,
}

impl From<AllocError> for GraphError {
    ghost from_gives = { λ _ e. e ≡ Memory };

    fn from(_e: AllocError) -> GraphError {
        GraphError::Memory
    }
}

impl<T: Drop> From<AllocFailed<T>> for GraphError {
    ghost from_gives = { λ _ e. e ≡ Memory };

    fn from(_e: AllocFailed<T>) -> GraphError {
        GraphError::Memory
    }
}

/// There is no such link.
#[derive(Clone, Copy, Debug, PartialEq, Eq)]
pub struct Absent;
