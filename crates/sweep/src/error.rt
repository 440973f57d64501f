//! Why the rows of a sweep end early.
ghost use Rattle.std.specs.Prelude.{◌≡◌};
ghost use Rattle.sweep.specs.declared.error.RowsError.TheVariants.{Memory, Write};

use io_edge::Failed;
use net_names::NoMemory;

/// Why the rows of a sweep end early.
#[derive(Clone, Copy, Debug, PartialEq, Eq)]
pub enum RowsError {
    /// There is not enough memory.
    Memory,
    /// A write failed.
    Write,
}

impl From<NoMemory> for RowsError {
    ghost from_gives = { λ _ e. e ≡ Memory };

    fn from(_e: NoMemory) -> RowsError {
        RowsError::Memory
    }
}

impl From<Failed> for RowsError {
    ghost from_gives = { λ _ e. e ≡ Write };

    fn from(_e: Failed) -> RowsError {
        RowsError::Write
    }
}
